//! The calls of a client that wait for an answer, numbered from 1.
#![tactic(auto)]

mod calls;
mod fault;

pub use calls::{Asked, NumberedCalls};
pub use fault::StartFault;
