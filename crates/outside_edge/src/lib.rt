//! The outside as traits: files by name and written bytes, each with a count of its faults.
#![tactic(auto)]

mod law;
mod shelf;
mod sink;

pub use law::puts_in_a_row;
pub use shelf::{FileShelf, LONGEST_FILE, LoadFault, MemShelf, Shelf};
pub use sink::{MemSink, PutFault, Sink, StdSink};
