//! The clock of logical time: real time less the time halted before it.
#![tactic(auto)]

mod clock;
mod laws;

pub use clock::LogicalClock;
pub use laws::cut_laws;
