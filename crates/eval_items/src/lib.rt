//! The rows of the items of a work list that look at no object.
#![tactic(auto)]

mod asking;
mod calling;
mod choosing;
mod exprs;
mod locking;
mod looping;
mod meanings;
mod placing;
mod setting;
mod stmts;

pub use asking::{ask_maybe, ask_once, spawn};
pub use calling::{enter, fall, give, raise};
pub use choosing::{branch, go_round, pick};
pub use exprs::eval;
pub use locking::{grab, leave};
pub use looping::{for_int, next};
pub use setting::{assign, assign_node, discard, guard, nap, print};
pub use stmts::exec;
