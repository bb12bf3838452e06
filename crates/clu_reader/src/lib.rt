//! Reads the text of a program, and tells whether the program is accepted.
#![tactic(auto)]

mod accepting;
mod fault;
mod program;
mod typing;

pub use accepting::accept;
pub use clu_expr_reader::ReadFault;
pub use fault::{AcceptFault, CheckFault};
pub use program::{no_text_has_two_trees, read_program};
pub use typing::check;
