//! The nodes of a program under a list of entries: which entry is legal, and what it gives.
#![tactic(auto)]

mod conditions;
mod world;

pub use node_core::Memory;
pub use world::{DebugWorld, WorldFault};
pub use world_rules::Condition;
pub use world_types::{Entry, Told};
