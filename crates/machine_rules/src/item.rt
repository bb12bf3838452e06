use clu_tree::{Addr, Arm, Expr, Handlers, Op, Shape, Stmt, TagArm, Text};
use sqlite_items::Items;

/// What stands round a statement: handlers, or the names of a `resignal`.
#[derive(Drop)]
pub enum Catch {
    Handle(Handlers),
    Pass(Items<Text>),
}

/// An item of a work list: what is still to be done. The words for values speak of a frame's value list.
#[derive(Drop)]
pub enum Item {
    /// Evaluates an expression and adds its value.
    Eval(Expr),
    /// Takes an operation's operands and adds its result.
    Apply(Op),
    /// Makes a record of so many fields.
    MakeRecord(usize),
    /// Makes an array of so many elements.
    MakeArray(usize),
    /// Makes a oneof with this tag.
    MakeTag(u16),
    /// Reads a field.
    Get(u16),
    /// Writes a field.
    Put(u16),
    /// The second operand of `cand` (false) or `cor` (true).
    Pick(bool, Expr),
    /// Calls a routine.
    Enter(u16),
    /// The end of a routine's body.
    Fall,
    /// Begins a statement.
    Exec(Stmt),
    /// Takes a value and sets a variable.
    Assign(Text),
    /// Takes a value and sets a node variable.
    AssignNode(u16),
    /// Takes a value and drops it.
    Discard,
    /// Takes a string and prints it as a line.
    Print,
    /// Takes a time and sleeps.
    Nap,
    /// Takes a lock, enters it and puts the body.
    Grab(Items<Stmt>),
    /// Gives a lock back.
    Leave(Addr),
    /// Starts a process in a routine.
    Spawn(u16),
    /// Sends a `once` call of a routine.
    AskOnce(u16),
    /// Sends a `maybe` call of a routine.
    AskMaybe(u16),
    /// Takes a bool and chooses a body of an `if`.
    Branch(Items<Stmt>, Items<Arm>, Option<Items<Stmt>>),
    /// Takes a bool and goes round a `while`, whose test and line these are.
    Loop(Expr, Items<Stmt>, u32),
    /// Takes the bounds of a `for` over numbers.
    ForInt(Text, Shape, Items<Stmt>),
    /// The next round of a `for` over numbers: the number, and the last one.
    Next(Text, Shape, Items<Stmt>, i64, i64),
    /// Takes the array of a `for` over elements.
    ForEach(Text, Shape, Items<Stmt>),
    /// The next round of a `for` over elements: the array, and the index.
    Each(Text, Shape, Items<Stmt>, Addr, i64),
    /// Takes a oneof and chooses an arm of a `tagcase`.
    Tagged(Items<TagArm>, Option<Items<Stmt>>),
    /// Ends what a guard stands round.
    Guard(Catch),
    /// Takes a value and ends the frame raising this exception with it.
    Raise(Text),
    /// Takes a value and ends the frame with it.
    Give,
}
