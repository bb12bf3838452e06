//! The live processes of a node, with their status and the order in which they take turns.
#![tactic(auto)]

mod table;

pub use clu_tree::Addr;
pub use machine_rules::Status;
pub use table::{AddFault, LAST_NUMBER, MAX_LIVE, Memory, ProcessTable};
