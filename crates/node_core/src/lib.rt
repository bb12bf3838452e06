//! A node of the machine without debugger.
#![tactic(auto)]

mod limits;
mod lines;
mod node;
mod start;
mod stepping;
mod turn;

pub use clu_eval::Memory;
pub use node::{Node, NodeFault};
pub use world_types::{Effects, Line, Mark, Owner, Sent};
