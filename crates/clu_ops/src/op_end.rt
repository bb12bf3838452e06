use clu_tree::{Sig, Value};

/// How an operation ends.
#[derive(Debug, Drop)]
pub enum OpEnd {
    Value(Value),
    /// An exception.
    Signal(Sig),
}
