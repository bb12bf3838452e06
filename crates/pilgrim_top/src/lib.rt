//! The top call: the words of a command line, and what they ask.
#![tactic(auto)]

mod replay;
mod script;
mod stop;
mod system;
mod top;
mod usage;
mod written;

pub use system::status_of_command;
pub use top::{Still, top_still, top_words};
pub use usage::{RunWords, Usage, UsageFault, usage_of};
