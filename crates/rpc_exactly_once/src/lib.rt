//! The tables of calls that are made exactly once: the client's, and the server's.
#![tactic(auto)]

mod client;
mod row;
mod server;
mod table;

pub use client::OnceClient;
pub use numbered_calls::StartFault;
pub use packet_wire::{Bytes, Memory, Packet};
pub use row::{Arrival, Row};
pub use server::OnceServer;
