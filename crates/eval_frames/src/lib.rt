//! What all rows of a step stand on: variables, operands, locks, how frames begin and end, and how exceptions unwind.
#![tactic(auto)]

mod ending;
mod going;
mod landing;
mod locks;
mod operands;
mod raising;
mod starts;
mod vars;

pub use ending::{acts, ends, goes};
pub use going::{adds, begins, puts};
pub use locks::{holds, leaves};
pub use operands::{listed, stacked, take_last};
pub use raising::{fail, failure, raise, signal, unwind};
pub use starts::{entry, put_body};
pub use vars::{assign, declare, find};
