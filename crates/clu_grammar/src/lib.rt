//! The grammar of programs: what tokens read as, and that they read in one way.
#![tactic(auto)]

mod law;

pub use law::{expressions_have_one_reading, no_text_has_two_trees, types_have_one_reading};
