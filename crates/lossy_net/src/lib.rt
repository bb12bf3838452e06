//! A network that loses and repeats packets: how many copies each packet has, and which of them are still on their way.
#![tactic(auto)]

mod copies;
mod draw;
mod net;

pub use draw::fate;
pub use net::{Memory, Net};
