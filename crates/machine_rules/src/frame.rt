use crate::item::Item;
use crate::stack::Stack;
use clu_tree::{Shape, Text, Value};
use sqlite_items::Items;

/// A variable of a frame. It has no value until it is set.
#[derive(Drop)]
pub struct Var {
    pub name: Text,
    pub shape: Shape,
    pub value: Option<Value>,
}

/// A call of a routine that hasn't ended: the routine's place in the program, counted from 0, the line last begun
/// (at first the header's), its variables by first declaration, and its parts of the work list and of the value list.
#[derive(Drop)]
pub struct Frame {
    pub routine: u16,
    pub line: u32,
    pub vars: Items<Var>,
    pub work: Stack<Item>,
    pub values: Stack<Value>,
}
