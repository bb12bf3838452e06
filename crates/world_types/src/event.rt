use crate::bytes::NameText;

/// Which of the two remote calls.
#[derive(Clone, Copy, Debug, PartialEq, Eq, Drop)]
pub enum Kind {
    Once,
    Maybe,
}

/// What a halted node may be asked.
#[derive(Debug, Drop)]
pub enum Question {
    /// Its live processes.
    Ps,
    /// The frames of a process.
    Trace { process: u64 },
    /// The frames of the process that waits for this call.
    Caller { kind: Kind, seq: u64 },
    /// The variables of a process's innermost frame.
    Vars { process: u64 },
    /// A variable, printed by its type's own operation.
    Print { process: u64, name: NameText },
    /// Its pending calls.
    Calls,
    /// Its logical time.
    Time,
}

/// Why a line of the console was no command.
#[derive(Clone, Copy, Debug, PartialEq, Eq, Drop)]
pub enum SayWord {
    Unknown,
    NoNode,
    Changes,
}

/// What happens at a moment of a run. Nodes are numbered from 1, lines too; a packet is named by its sender and its
/// place, from 1, among those that the sender sent. Times are in ms.
#[derive(Debug, Drop)]
pub enum Event {
    /// So many steps of the node's picked process, at a reading of the clock.
    Turn { node: u32, steps: u32, reading: u64 },
    /// A copy of a packet reaches the node.
    Packet { node: u32, from: u32, index: u64 },
    /// The limits that are due at the node expire.
    Tick { node: u32 },
    /// The node halts at a breakpoint.
    Stop { node: u32 },
    Halt { node: u32 },
    Resume { node: u32 },
    Ask { node: u32, question: Question },
    Answer { node: u32 },
    /// A line is marked as a breakpoint.
    Set { node: u32, line: u32 },
    Clear { node: u32, line: u32 },
    HaltAll,
    /// All may go on; with a time, until so much logical time has passed.
    ResumeAll { until: Option<u64> },
    Say { word: SayWord },
    Quit,
}

/// An event with its stamp, in ms.
#[derive(Debug, Drop)]
pub struct Told {
    pub stamp: u64,
    pub event: Event,
}

/// An event of the machine without debugger, at its logical time in ms.
#[derive(Clone, Copy, Debug, PartialEq, Eq, Drop)]
pub enum PlainEvent {
    Turn {
        node: u32,
        steps: u32,
        at: u64,
    },
    Deliver {
        node: u32,
        from: u32,
        index: u64,
        at: u64,
    },
    Tick {
        node: u32,
        at: u64,
    },
}
