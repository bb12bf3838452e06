//! The text of scripts and journals: lines that tell an event with its stamp.
#![tactic(auto)]

mod event;
mod fault;
mod field;
mod journal;
mod line;
mod name;
mod question;
mod word;
mod writing;

pub use fault::{JournalFault, LineFault, Memory};
pub use journal::read_journal;
pub use line::{FirstLine, first_line, spelling_is_unambiguous};
pub use world_types::{Event, Kind, NameText, Question, SayWord, Told};
pub use writing::write_journal;
