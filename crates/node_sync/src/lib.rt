//! The locks and semaphores of a node. Those that wait are served first in, first out.
#![tactic(auto)]

mod critical_region;
mod memory;
mod node_sync;
mod timed_semaphore;

pub use clu_tree::Addr;
pub use critical_region::{EnterEnd, Lock};
pub use memory::Memory;
pub use node_sync::NodeSync;
pub use timed_semaphore::{MAX_COUNT, Semaphore, SignalEnd, WaitEnd};
