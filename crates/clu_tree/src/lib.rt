//! Tokens and syntax trees of programs, as plain data, and the typing rules of the part that runs.
#![tactic(auto)]

mod lexeme;
pub mod make;
mod op;
mod program;
mod shape;
mod spelling;
mod text;
mod tree;
mod value;

pub use lexeme::{Key, Lexeme};
pub use op::Op;
pub use program::{Cluster, Equate, Initial, NodeDecl, NodePart, NodeVar, Program, Routine};
pub use shape::{Listed, Named, Shape};
pub use spelling::{symbol_of, word_of};
pub use text::Text;
pub use tree::{
    Arm, Expr, FieldInit, Handlers, Infix, Iter, Meant, Prefix, Remote, Stmt, TagArm, Target, When,
};
pub use value::{Addr, Sig, Value};
