//! The time limits of a node, kept in the order in which they expire.
#![tactic(auto)]

mod queue;

pub use queue::{Memory, TimerQueue};
pub use world_types::Owner;
