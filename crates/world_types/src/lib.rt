//! Events, entries and effects of a run, as plain data that every layer above speaks of.
#![tactic(auto)]

mod bytes;
mod effects;
mod event;

pub use bytes::{Bytes, NameText};
pub use effects::{Effects, Entry, Line, Mark, Outcome, Owner, Sent};
pub use event::{Event, Kind, PlainEvent, Question, SayWord, Told};
