//! What a process keeps, what one step of it does, the law that a process of a typed program is never stuck, and whose
//! turn it is among processes.
#![tactic(auto)]

mod act;
mod frame;
mod item;
mod law;
mod stack;
mod status;

pub use act::{Act, RemoteAsk, StepEnd};
pub use frame::{Frame, Var};
pub use item::{Catch, Item};
pub use law::{locks_kept, never_stuck, picking_law};
pub use obj_region::{Obj, Values};
pub use stack::Stack;
pub use status::Status;

#[cfg(test)]
mod tests;
