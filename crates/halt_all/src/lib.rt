//! The rounds in which all nodes halt, and the packets that a halted node holds back.
#![tactic(auto)]

mod held;
mod memory;
mod round;
mod rounds;

pub use held::Held;
pub use memory::Memory;
pub use rounds::Rounds;
