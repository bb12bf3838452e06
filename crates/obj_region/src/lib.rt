//! The objects of a node by address, which programs change, and a scratch part that leaves them as they were.
#![tactic(auto)]

mod array;
mod fault;
mod object;
mod objects;
mod region;
mod scratch;
mod store;
#[cfg(test)]
mod tests;
mod values;

pub use clu_tree::{Addr, Text, Value};
pub use fault::{Memory, RegionFault};
pub use object::Obj;
pub use region::{MAX_CELLS, MAX_OBJECTS, Region};
pub use scratch::Scratch;
pub use store::Store;
pub use values::Values;
