//! The lines of a program at which a node stops.
#![tactic(auto)]

mod marks;

pub use marks::{Marks, Memory};
