//! The built-in operations on ints, bools, chars, strings and nil.
#![tactic(auto)]

mod ends;
mod fault;
mod ints;
mod laws;
mod op_end;
mod parsing;
mod table;
mod texts;

pub use fault::Memory;
pub use laws::{division, parse_after_unparse};
pub use op_end::OpEnd;
pub use table::apply;

#[cfg(test)]
mod tests;
