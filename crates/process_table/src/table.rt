ghost use Rattle.std.specs.Prelude.{◌≡◌, ◌+◌, ◌↔◌, ℕ, [], ◌∷◌, ◌++◌, nat_eq, IfOk, OnOk, OnErr, IfSome, IsNone, is_some, slice_get, Some, None};
ghost use Rattle.std.specs.Map.{remove_entry, set_value};
ghost use Rattle.machine_rules.specs.Picking.{IsNext, IsReady, least_ready, picks, ready_above};
ghost use Rattle.process_table.specs.Processes.{ChangesOnly, IsFull, IsLive, IsTable, numbers, status_of};

use machine_rules::{Status, picking_law};
use std::alloc::{AllocError, Global};
use std::marker::Model;
use thiserror::Error;

/// How many processes may be live at a time.
pub const MAX_LIVE: usize = 1024;

/// The last number that is given to a process.
pub const LAST_NUMBER: u64 = 1 << 62;

/// Memory ran out.
pub type Memory = AllocError;

/// Why a process couldn't be added.
#[derive(Debug, Drop, Error)]
pub enum AddFault {
    #[error("no more processes can be added")]
    Full,
    #[error("out of memory")]
    Memory,
}

/// The live processes of a node, each with its number, from 1, and its status. A number isn't given twice.
#[derive(Debug, Drop)]
pub struct ProcessTable {
    live: Vec<(u64, Status)>,
    given: u64,
    picked: u64,
}

impl Model for ProcessTable {
    ghost use Rattle.process_table.specs.Processes.{Processes, IsTable};

    ghost Value = { Processes };

    ghost view = { λ t. record { live = t.live.items; given = t.given; picked = t.picked } };

    ghost invariant = { λ t. IsTable (record { live = t.live.items; given = t.given; picked = t.picked }) };
}

impl ProcessTable {
    /// A table without processes. The number picked last counts as 0.
    pub fn new(alloc: Global) -> Result<ProcessTable, Memory>
        ensures empty { IfOk result (λ t. t ≡ record { live = []; given = 0; picked = 0 }) }
        ensures table { IfOk result IsTable }
    {
        Ok(ProcessTable {
            live: Vec::new(alloc),
            given: 0,
            picked: 0,
        })
    }

    /// Adds a process that is ready, under the next number, and answers that number. It is `Full` where 1,024
    /// processes are live, or where the number 2^62 was given. After either fault the table is as it was.
    pub fn add(&mut self, alloc: Global) -> Result<u64, AddFault>
        ensures number { IfOk result (λ pid. pid ≡ self.old.given + 1) }
        ensures ok { OnOk result (self.new ≡ record self.old {
          live = self.old.live ++ (self.old.given + 1, Status.Ready) ∷ [];
          given = self.old.given + 1;
        }) }
        ensures statuses { IfOk result (λ pid. ChangesOnly self.old self.new pid (Some Status.Ready)) }
        ensures full { (result ≡ Err AddFault.Full) ↔ IsFull self.old }
        ensures err { OnErr result (self.new ≡ self.old) }
        ensures table { IsTable self.new }
    {
        if self.live.len() == MAX_LIVE || self.given == LAST_NUMBER {
            return Err(AddFault::Full);
        }
        let pid = self.given + 1;
        self.live
            .push((pid, Status::Ready))
            .map_err(|_| AddFault::Memory)?;
        self.given = pid;
        Ok(pid)
    }

    /// The process whose turn it is: the least ready number above the one picked last, else the least ready
    /// number. None where no process is ready.
    pub fn pick(&self) -> Option<u64>
        ensures picks { result ≡ picks self.now.picked self.now.live }
        ensures none { IsNone result ↔ ((pid : ℕ) → ¬ IsReady self.now.live pid) }
        ensures next { IfSome result (IsNext self.now.picked self.now.live) }
        ensures table { IsTable self.now }
    {
        picking_law();
        self.ready_above(self.picked).or_else(|| self.least_ready())
    }

    /// Remembers a live process as the one picked last.
    pub fn picked(&mut self, pid: u64)
        requires { IsLive self.old pid }
        ensures picked { self.new ≡ record self.old { picked = pid } }
        ensures table { IsTable self.new }
    {
        self.picked = pid;
    }

    /// The status of a process. None where it isn't live.
    pub fn status(&self, pid: u64) -> Option<Status>
        ensures status { result ≡ status_of self.now pid }
        ensures table { IsTable self.now }
    {
        let place = self.place_of(pid)?;
        Some(self.live[place].1)
    }

    /// The number of the live process at this place, from 0, in the order of the numbers. None where fewer are
    /// live.
    pub fn at(&self, place: usize) -> Option<u64>
        ensures number { result ≡ slice_get (numbers self.now) place }
        ensures table { IsTable self.now }
    {
        self.live.get(place).map(|process| process.0)
    }

    /// Gives a live process this status.
    pub fn set_status(&mut self, pid: u64, status: Status)
        requires { IsLive self.old pid }
        ensures live { self.new ≡ record self.old { live = set_value (nat_eq pid) self.old.live status } }
        ensures statuses { ChangesOnly self.old self.new pid (Some status) }
        ensures table { IsTable self.new }
    {
        let place = self.place_of(pid).unwrap();
        self.live[place] = (pid, status);
    }

    /// Takes a live process out of the table.
    pub fn end(&mut self, pid: u64)
        requires { IsLive self.old pid }
        ensures live { self.new ≡ record self.old { live = remove_entry (nat_eq pid) self.old.live } }
        ensures statuses { ChangesOnly self.old self.new pid None }
        ensures table { IsTable self.new }
    {
        let place = self.place_of(pid).unwrap();
        self.live.remove(place);
    }

    // The least ready number above this one.
    fn ready_above(&self, last: u64) -> Option<u64>
        ensures { result ≡ ready_above last self.now.live }
    {
        let found = self
            .live
            .iter()
            .find(|process| last < process.0 && process.1 == Status::Ready);
        found.map(|process| process.0)
    }

    // The least ready number.
    fn least_ready(&self) -> Option<u64>
        ensures { result ≡ least_ready self.now.live }
    {
        let found = self.live.iter().find(|process| process.1 == Status::Ready);
        found.map(|process| process.0)
    }

    // Where a live process stands.
    fn place_of(&self, pid: u64) -> Option<usize>
        ensures live { is_some result ≡ is_some (status_of self.now pid) }
        ensures place { IfSome result (λ place. slice_get (numbers self.now) place ≡ Some pid) }
        ensures table { IsTable self.now }
    {
        self.live
            .binary_search_by_key(&pid, |&(number, _)| number)
            .ok()
    }
}
