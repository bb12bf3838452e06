ghost use Rattle.std.specs.Prelude.{◌≡◌, ◌≤◌, Some, IfOk};
ghost use Rattle.numbered_calls.specs.Calls.{none_yet, floor_of, AreNumbered, Starts, Ends, IsAt, IsFloor, IsPending};
ghost use Rattle.rpc_exactly_once.specs.Client.{packet_of};

use numbered_calls::{NumberedCalls, StartFault};
use packet_wire::{Memory, Packet};
use std::alloc::Global;
use std::marker::Model;
use world_types::Bytes;

/// The calls of a client that are sent again until their answer comes. Their arguments are kept as on the wire.
#[derive(Drop)]
pub struct OnceClient {
    calls: NumberedCalls<Bytes>,
}

impl Model for OnceClient {
    ghost use Rattle.std.specs.Prelude.{List, ℕ};
    ghost use Rattle.std.specs.Coded.{coded_list, coded_ℕ};
    ghost use Rattle.numbered_calls.specs.Calls.{Calls, calls_code};

    ghost Value = { Calls (List ℕ) };

    ghost coded = { calls_code (coded_list coded_ℕ) };

    ghost view = { λ c. c.calls };
}

impl OnceClient {
    /// No call is pending, and none was made.
    pub fn new(alloc: Global) -> Result<OnceClient, Memory>
        ensures none { IfOk result (λ client. client ≡ none_yet) }
        ensures numbered { IfOk result AreNumbered }
    {
        Ok(OnceClient {
            calls: NumberedCalls::new(alloc),
        })
    }

    /// Gives a call the next number, from 1. `Full` comes after number 2^62. After an error all is as before.
    pub fn start(
        &mut self,
        alloc: Global,
        to: u32,
        routine: u16,
        args: Bytes,
    ) -> Result<u64, StartFault>
        ensures { Starts self.old self.new (record { to = to; routine = routine; args = args }) result }
    {
        self.calls.start(alloc, to, routine, args)
    }

    /// The packet of a pending call, to be sent by the node `me`. It tells the client's present floor.
    pub fn packet(&self, alloc: Global, me: u32, seq: u64) -> Result<Packet, Memory>
        requires { IsPending self.now seq }
        ensures packet { IfOk result (λ packet. Some packet ≡ packet_of self.now me seq) }
        ensures floor { (1 ≤ floor_of self.now) × (floor_of self.now ≤ seq) }
        ensures numbered { AreNumbered self.now }
    {
        let call = self.calls.get(seq).unwrap();
        Ok(Packet::Call {
            from: me,
            to: call.to,
            seq,
            floor: self.calls.floor(),
            routine: call.routine,
            args: call.args.copy(alloc)?,
        })
    }

    /// The call has its answer. False exactly where it isn't pending, and then all is as before.
    pub fn reply(&mut self, seq: u64) -> bool
        ensures { Ends self.old self.new seq result }
    {
        self.calls.end(seq)
    }

    /// The least pending number, or the next number where no call is pending.
    pub fn floor(&self) -> u64
        ensures { IsFloor self.now result }
    {
        self.calls.floor()
    }

    /// Number, server and routine of the pending call at this place by number, from 0. None exactly where there is
    /// none.
    pub fn at(&self, place: usize) -> Option<(u64, u32, u16)>
        ensures { IsAt self.now place result }
    {
        self.calls.at(place)
    }
}
