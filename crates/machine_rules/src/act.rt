use clu_tree::{Addr, Sig, Text, Value};
use sqlite_items::Items;

/// A remote call: the routine's place in the program, the number of the node, and the arguments.
#[derive(Drop)]
pub struct RemoteAsk {
    pub routine: u16,
    pub to: i64,
    pub args: Items<Value>,
}

/// What a step asks of the node that the process lives on.
#[derive(Drop)]
pub enum Act {
    /// Nothing: the process goes on.
    Went,
    /// Sets a node variable.
    SetVar(u16, Value),
    /// Prints a line.
    Put(Text),
    /// Sleeps so many ms, whatever the number is: at 0 or less the node lets the process go on.
    Sleep(i64),
    /// Enters a lock, or waits for it.
    Enter(Addr),
    /// A lock, or a semaphore with its count, was made here.
    MakeSync(Addr, u64),
    Signal(Addr),
    /// Waits for a semaphore, at most so many ms where a time is given.
    Wait(Addr, Option<i64>),
    /// Starts a process.
    Fork(u16, Items<Value>),
    Once(RemoteAsk),
    /// A call that waits at most so many ms.
    Maybe(RemoteAsk, i64),
    /// The process is over, with this value.
    Ended(Value),
    /// The process is over, of this exception.
    Died(Sig),
    /// The step would change an object that it may not change, and wasn't taken. The process is given up.
    Old,
}

/// What a step gave: the locks given back, innermost first, and its act.
#[derive(Drop)]
pub struct StepEnd {
    pub left: Items<Addr>,
    pub act: Act,
}
