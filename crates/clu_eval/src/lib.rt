//! Processes: a step of one is the row of its frames.
#![tactic(auto)]

mod process;
mod rows;

pub use machine_rules::{Act, RemoteAsk, StepEnd};
pub use process::{Memory, Process};
