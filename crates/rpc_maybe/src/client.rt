ghost use Rattle.std.specs.Prelude.{◌≡◌, IfOk};
ghost use Rattle.numbered_calls.specs.Calls.{none_yet, AreNumbered, Starts, Ends, IsAt};

use numbered_calls::{NumberedCalls, StartFault};
use packet_wire::Memory;
use std::alloc::Global;
use std::marker::Model;

/// The calls of a client that wait for an answer or for their limit. Nothing is kept of their arguments.
#[derive(Drop)]
pub struct MaybeClient {
    calls: NumberedCalls<()>,
}

impl Model for MaybeClient {
    ghost use Rattle.numbered_calls.specs.Calls.{Calls, calls_code};
    ghost use Rattle.rpc_maybe.specs.Client.{nothing_code};

    ghost Value = { Calls Unit };

    ghost coded = { calls_code nothing_code };

    ghost view = { λ c. c.calls };
}

impl MaybeClient {
    /// No call is pending, and none was made.
    pub fn new(alloc: Global) -> Result<MaybeClient, Memory>
        ensures none { IfOk result (λ client. client ≡ none_yet) }
        ensures numbered { IfOk result AreNumbered }
    {
        Ok(MaybeClient {
            calls: NumberedCalls::new(alloc),
        })
    }

    /// Gives a call the next number, from 1. `Full` comes after number 2^62. After an error all is as before.
    pub fn start(&mut self, alloc: Global, to: u32, routine: u16) -> Result<u64, StartFault>
        ensures { Starts self.old self.new (record { to = to; routine = routine; args = tt }) result }
    {
        self.calls.start(alloc, to, routine, ())
    }

    /// The call has its answer. False exactly where it isn't pending, and then all is as before.
    pub fn reply(&mut self, seq: u64) -> bool
        ensures { Ends self.old self.new seq result }
    {
        self.calls.end(seq)
    }

    /// The call's limit has come. False exactly where it isn't pending, and then all is as before.
    pub fn expire(&mut self, seq: u64) -> bool
        ensures { Ends self.old self.new seq result }
    {
        self.calls.end(seq)
    }

    /// Number, server and routine of the pending call at this place by number, from 0. None exactly where there is
    /// none.
    pub fn at(&self, place: usize) -> Option<(u64, u32, u16)>
        ensures { IsAt self.now place result }
    {
        self.calls.at(place)
    }
}
