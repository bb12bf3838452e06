//! When a program is typed, and what each of its names and operators stands for then.
#![tactic(auto)]

mod law;

pub use law::{filling_law, guards_law, same_law, sending_law};
