ghost use Rattle.std.specs.Prelude.{◌≡◌, ◌<◌, ◌≤◌, ◌^◌, ◌↔◌, ℕ, Some, IfOk, OnErr, slice_get, IsTrue};
ghost use Rattle.std.specs.Bool.{OnFalse};
ghost use Rattle.node_sync.specs.Semaphores.{IsSemaphore, WaitsFor, cancelled, counting, signalled, waited};

use crate::memory::Memory;
use std::alloc::Global;
use std::collections::VecDeque;
use std::marker::Model;

/// The greatest count of a semaphore.
pub const MAX_COUNT: u64 = 1 << 62;

/// What a signal did.
#[derive(Clone, Copy, Debug, PartialEq, Eq)]
pub enum SignalEnd {
    /// This process was the first that waited, and waits no more.
    Woke(u64),
    /// Nobody waits, and the count is one more.
    Counted,
    /// The count is 2^62, and stays so.
    AtLimit,
}

/// What a process that waits at a semaphore gets.
#[derive(Clone, Copy, Debug, PartialEq, Eq)]
pub enum WaitEnd {
    /// The count was above 0, and is one less now.
    Taken,
    /// The count is 0, and the process waits behind all others.
    Queued,
}

/// A semaphore: its count, at most 2^62, and the processes that wait for it.
#[derive(Drop)]
pub struct Semaphore {
    count: u64,
    waiting: VecDeque<u64>,
}

impl Model for Semaphore {
    ghost use Rattle.node_sync.specs.Semaphores.{SemaphoreState, IsSemaphore, semaphore_code};

    ghost Value = { SemaphoreState };

    ghost coded = { semaphore_code };

    ghost view = { λ s. record { count = s.count; waiting = s.waiting.items } };

    ghost invariant = { λ s. IsSemaphore (record { count = s.count; waiting = s.waiting.items }) };
}

impl Semaphore {
    /// A semaphore with this count, for which nobody waits.
    pub fn new(alloc: Global, count: u64) -> Semaphore
        requires { count ≤ 2 ^ 62 }
        ensures counting { result ≡ counting count }
        ensures semaphore { IsSemaphore result }
    {
        Semaphore {
            count,
            waiting: VecDeque::new(alloc),
        }
    }

    /// Wakes the first that waits or, where nobody waits, adds one to the count. `AtLimit` comes exactly where the
    /// count is 2^62, and then all is as before.
    pub fn signal(&mut self) -> SignalEnd
        ensures woke { (pid : ℕ) → (result ≡ SignalEnd.Woke pid) ↔ (slice_get self.old.waiting 0 ≡ Some pid) }
        ensures at_limit { (result ≡ SignalEnd.AtLimit) ↔ (self.old.count ≡ 2 ^ 62) }
        ensures signalled { self.new ≡ signalled self.old result }
        ensures semaphore { IsSemaphore self.new }
    {
        if let Some(pid) = self.waiting.pop_front() {
            return SignalEnd::Woke(pid);
        }
        if self.count == MAX_COUNT {
            return SignalEnd::AtLimit;
        }
        self.count += 1;
        SignalEnd::Counted
    }

    /// Takes one from a count above 0, or the process waits behind all others. After want of memory the semaphore
    /// is as it was.
    pub fn wait(&mut self, _alloc: Global, pid: u64) -> Result<WaitEnd, Memory>
        ensures taken { IfOk result (λ end. (end ≡ WaitEnd.Taken) ↔ (0 < self.old.count)) }
        ensures ok { IfOk result (λ end. self.new ≡ waited self.old pid end) }
        ensures err { OnErr result (self.new ≡ self.old) }
        ensures semaphore { IsSemaphore self.new }
    {
        if self.count > 0 {
            self.count -= 1;
            return Ok(WaitEnd::Taken);
        }
        self.waiting.push_back(pid)?;
        Ok(WaitEnd::Queued)
    }

    /// The process waits no more. False exactly where it didn't wait, and then all is as before.
    pub fn cancel(&mut self, pid: u64) -> bool
        ensures waited { IsTrue result ↔ WaitsFor self.old pid }
        ensures cancelled { self.new ≡ cancelled self.old pid }
        ensures unchanged { OnFalse result (self.new ≡ self.old) }
        ensures semaphore { IsSemaphore self.new }
    {
        let waited = self.waiting.contains(&pid);
        self.waiting.retain(|other| *other != pid);
        waited
    }
}
