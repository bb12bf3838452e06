//! What a list of entries says, the machine without debugger, and the laws that join them.
#![tactic(auto)]

mod condition;
mod law;

pub use condition::Condition;
pub use law::{
    clock_law, cut_laws, erasing_laws, following_laws, knowing_law, lagging_clock_law, plain_law,
};
