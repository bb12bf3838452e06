//! The packets of remote calls, and their one spelling on the wire.
#![tactic(auto)]

mod fault;
mod laws;
mod packet;
mod reading;
mod tag;
mod writing;

pub use fault::{Memory, WireFault};
pub use laws::{no_spelling_begins_another, one_packet, one_spelling};
pub use packet::Packet;
pub use reading::read;
pub use world_types::{Bytes, Kind, Outcome};
pub use writing::write;
