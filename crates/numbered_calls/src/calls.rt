ghost use Rattle.std.specs.Prelude.{◌≡◌, OnSome};
ghost use Rattle.std.specs.FinMap as map;
ghost use Rattle.std.specs.Option.{option_copied};

use crate::fault::StartFault;
use indexmap::IndexMap;
use std::alloc::Global;
use std::marker::Model;

/// The last number of a call, for each client and kind.
const LAST_NUMBER: u64 = 1 << 62;

/// A pending call: the server that is asked, the routine, and what is kept of its arguments.
#[derive(Debug, Drop)]
pub struct Asked<T> {
    pub to: u32,
    pub routine: u16,
    pub args: T,
}

/// The pending calls of a client, by number. Numbers count from 1, and none is given twice.
#[derive(Drop)]
pub struct NumberedCalls<T> {
    last: u64,
    pending: IndexMap<u64, Asked<T>>,
}

impl<T> Model for NumberedCalls<T> {
    ghost use Rattle.std.specs.Prelude.{◌≤◌, ◌^◌};
    ghost use Rattle.std.specs.FinMap as map;
    ghost use Rattle.numbered_calls.specs.Calls.{Calls, calls_code};
    ghost use Rattle.numbered_calls.specs.Numbers.{Rise};

    ghost Value = { Calls T };

    ghost coded = { calls_code T.code };

    ghost view = { λ c. record { last = c.last; pending = map.from_entries c.pending.entries } };

    ghost invariant = { λ c. Rise 0 c.last c.pending.entries × (c.last ≤ 2 ^ 62) };
}

impl<T: Drop> NumberedCalls<T> {
    ghost use Rattle.numbered_calls.specs.Calls.{none_yet, IsGiven, AreNumbered, Starts, Ends, IsFloor, IsAt};

    /// No call is pending, and none was made.
    pub fn new(alloc: Global) -> NumberedCalls<T>
        ensures none { result ≡ none_yet }
        ensures numbered { AreNumbered result }
    {
        NumberedCalls {
            last: 0,
            pending: IndexMap::new(alloc),
        }
    }

    /// Gives a call the next number. `Full` comes after number 2^62. After an error all is as before.
    pub fn start(
        &mut self,
        alloc: Global,
        to: u32,
        routine: u16,
        args: T,
    ) -> Result<u64, StartFault>
        ensures { Starts self.old self.new (record { to = to; routine = routine; args = args }) result }
    {
        if self.last == LAST_NUMBER {
            return Err(StartFault::Full);
        }
        let seq = self.last + 1;
        self.pending.insert(seq, Asked { to, routine, args })?;
        self.last = seq;
        Ok(seq)
    }

    /// Ends the call. False exactly where none of this number is pending, and then all is as before.
    pub fn end(&mut self, seq: u64) -> bool
        ensures { Ends self.old self.new seq result }
    {
        self.pending.shift_remove(&seq).is_some()
    }

    /// The pending call of this number. None exactly where none of this number is pending.
    pub fn get(&self, seq: u64) -> Option<&Asked<T>>
        ensures call { option_copied result ≡ map.get self.now.pending seq }
        ensures given { OnSome result (IsGiven self.now seq) }
        ensures numbered { AreNumbered self.now }
    {
        self.pending.get(&seq)
    }

    /// The least pending number, or the next number where no call is pending.
    pub fn floor(&self) -> u64
        ensures { IsFloor self.now result }
    {
        match self.pending.first() {
            Some((seq, _)) => *seq,
            None => self.last + 1,
        }
    }

    /// Number, server and routine of the pending call at this place by number, from 0. None exactly where there is
    /// none.
    pub fn at(&self, place: usize) -> Option<(u64, u32, u16)>
        ensures { IsAt self.now place result }
    {
        let (seq, call) = self.pending.get_index(place)?;
        Some((*seq, call.to, call.routine))
    }
}
