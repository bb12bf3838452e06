ghost use Rattle.std.specs.Prelude.{◌≡◌, []};

use crate::bytes::Bytes;
use crate::event::{Event, Kind};
use sqlite_items::Items;
use std::alloc::Global;

/// A packet that was sent, as its bytes on the wire.
#[derive(Debug, Drop)]
pub struct Sent {
    pub to: u32,
    pub bytes: Bytes,
}

/// A line that a node printed: the whole line as it is written, without its end.
#[derive(Debug, Drop)]
pub struct Line {
    pub node: u32,
    pub text: Bytes,
}

/// How a body ended: with a value, or raising an exception, which may carry one. Values are as on the wire.
#[derive(Debug, Drop)]
pub enum Outcome {
    Value(Bytes),
    Raised { name: Bytes, value: Option<Bytes> },
}

/// What a time limit belongs to: a process, or a pending call, by number.
#[derive(Clone, Copy, Debug, PartialEq, Eq, Drop)]
pub enum Owner {
    Process(u64),
    Once(u64),
    Maybe(u64),
}

/// What became of calls, limits and processes in an event.
#[derive(Debug, Drop)]
pub enum Mark {
    /// The body of a client's call begins, as the process `pid`.
    Began {
        kind: Kind,
        client: u32,
        seq: u64,
        pid: u64,
    },
    /// The body of a client's call ended.
    Finished {
        kind: Kind,
        client: u32,
        seq: u64,
        outcome: Outcome,
    },
    /// A call of this node has its answer.
    Answered {
        kind: Kind,
        seq: u64,
        outcome: Outcome,
    },
    Expired(Owner),
    Ended(u64),
    Died(u64),
}

/// What an event did: packets sent, lines printed and marks, each in order, and the text that the debugger shows.
#[derive(Debug, Drop)]
pub struct Effects {
    pub sent: Items<Sent>,
    pub lines: Items<Line>,
    pub marks: Items<Mark>,
    pub shown: Bytes,
}

impl Effects {
    /// No effects. Takes no memory.
    pub fn nothing(alloc: Global) -> Effects
        ensures { result ≡ record { sent = []; lines = []; marks = []; shown = [] } }
    {
        Effects {
            sent: Items::new(alloc),
            lines: Items::new(alloc),
            marks: Items::new(alloc),
            shown: Bytes::from_vec(Vec::new(alloc)),
        }
    }
}

/// An entry of the journal.
#[derive(Debug, Drop)]
pub struct Entry {
    pub stamp: u64,
    pub event: Event,
    pub effects: Effects,
}
