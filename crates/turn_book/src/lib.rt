//! A value that several threads use in turn, each by a pass, and whose history only grows.
#![tactic(auto)]

mod book;
mod kept;
mod pass;
mod steps;
mod view;

pub use book::{Book, Memory};
pub use kept::Kept;
pub use pass::{Busy, Pass};
