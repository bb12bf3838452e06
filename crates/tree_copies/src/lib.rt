//! Copies of trees, each equal to what it copies.
#![tactic(auto)]

mod expr;
mod shape;
mod simple;
mod stmt;
mod text;

pub use expr::{copy_expr, copy_exprs};
pub use shape::{copy_named, copy_shape};
pub use stmt::{copy_handlers, copy_stmt, copy_stmts};
