//! The client's side of calls that are made as often as their packet comes, or never.
#![tactic(auto)]

mod client;

pub use client::MaybeClient;
pub use numbered_calls::StartFault;
pub use packet_wire::Memory;
