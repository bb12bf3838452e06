//! What a usage asks, done.

ghost use Rattle.std.specs.Prelude.{◌≡◌, ◌≢◌, ◌⊎◌, ◌<◌, [], ℕ, Result};
ghost use Rattle.pilgrim_top.specs.Ends.{CountsFaults, CountsPuts, Says, status_of};
ghost use Rattle.pilgrim_top.specs.Top.{Does, LoadCause, RoomCause, WordsDo, WordsRoomCause, usage_text};
ghost use Rattle.pilgrim_top.specs.Usage.{IsUsage, texts_of};
ghost use Rattle.pilgrim_top.specs.declared.stop.Stop.{Stop};
ghost use Rattle.pilgrim_top.specs.declared.usage.Usage.{Usage};

use crate::replay::replay;
use crate::stop::{Stop, say};
use crate::usage::{Usage, UsageFault, usage_of};
use outside_edge::{Shelf, Sink, puts_in_a_row};
use std::alloc::Global;
use world_rules::following_laws;
use world_types::Entry;

/// What a run leaves: its status, and the journal.
///
/// | Status | Comes |
/// |---|---|
/// | 0 | every line of the script was applied |
/// | 1 | the words are outside the usage grammar |
/// | 2 | the program is too long or isn't accepted |
/// | 4 | a file wasn't read, or what was to be written was cut short |
/// | 5 | memory ran out |
/// | 6 | a line of the script isn't in the grammar, legal after those before or able to run yet, or is line 1,000,001 |
#[derive(Debug, Drop)]
pub struct Still {
    pub status: u8,
    pub journal: Vec<Entry>,
}

/// What is written where the words are outside the grammar.
const USAGE: &[u8] = b"usage: check, replay, erase, load or run\n";

/// The number of an end.
fn status_of(end: &Result<u8, Stop>) -> u8
    ensures { result ≡ status_of end.now }
{
    match end {
        Ok(status) => *status,
        Err(Stop::Unread) => 4,
        Err(Stop::Cut) => 4,
        Err(Stop::Memory) => 5,
    }
}

/// Does what a usage asks, and adds to an empty journal.
fn run<S: Shelf, K: Sink>(
    alloc: Global,
    usage: &Usage,
    shelf: &mut S,
    sink: &mut K,
    journal: &mut Vec<Entry>,
) -> Result<u8, Stop>
    requires { journal.old.items ≡ [] }
    ensures counts { CountsFaults (S.faults shelf.old) (S.faults shelf.new) (K.faults sink.old) (K.faults sink.new)
        result }
    ensures does { Does usage.now (S.told shelf.old) (S.told shelf.new) (K.told sink.old) (K.told sink.new)
        journal.new.items result }
{
    match usage {
        Usage::Replay(file, script) => replay(
            alloc,
            file.as_str(),
            script.as_str(),
            shelf,
            sink,
            journal,
        ),
        _ => say(sink, USAGE, 1),
    }
}

/// Does what a usage asks. A usage that can't be run yet writes the usage and has the status 1.
pub fn top_still<S: Shelf, K: Sink>(
    alloc: Global,
    usage: &Usage,
    shelf: &mut S,
    sink: &mut K,
) -> Still
    // A fault is answered only where a count rose in this call, and where one rose the answer is this.
    ensures fault { result.status ≡ 4 →
        (S.faults shelf.old < S.faults shelf.new) ⊎ (K.faults sink.old < K.faults sink.new) }
    ensures no_fault { result.status ≢ 4 →
        (S.faults shelf.new ≡ S.faults shelf.old) × (K.faults sink.new ≡ K.faults sink.old) }
    // Where they tell: if the shelf's count rose, one of the usage's loads failed, and if the sink's did, the room was
    // less than the bytes for the journal and for the status without the fault.
    ensures load_cause { S.faults shelf.old < S.faults shelf.new →
        LoadCause usage.now (S.told shelf.old) (S.told shelf.new) }
    ensures room_cause { K.faults sink.old < K.faults sink.new →
        RoomCause usage.now (S.told shelf.old) (S.told shelf.new) (K.told sink.old) (K.told sink.new)
        result.journal.items }
    // The journal is legal, its events are the script's lines, and the debugger can't be noticed.
    ensures does { (end : Result ℕ Stop)
        × (result.status ≡ status_of end)
        × Does usage.now (S.told shelf.old) (S.told shelf.new) (K.told sink.old) (K.told sink.new)
        result.journal.items end }
{
    following_laws();
    puts_in_a_row();
    let mut journal = Vec::new(alloc);
    let end = run(alloc, usage, shelf, sink, &mut journal);
    Still {
        status: status_of(&end),
        journal,
    }
}

/// Shows the usage.
fn show_usage<K: Sink>(sink: &mut K) -> Result<u8, Stop>
    ensures counts { CountsPuts (K.faults sink.old) (K.faults sink.new) result }
    ensures says { Says usage_text 1 (K.told sink.old) (K.told sink.new) result }
{
    say(sink, USAGE, 1)
}

/// Reads the words of a command line, without the program's own name, and does what they ask.
pub fn top_words<S: Shelf, K: Sink>(
    alloc: Global,
    words: &[String],
    shelf: &mut S,
    sink: &mut K,
) -> Still
    ensures fault { result.status ≡ 4 →
        (S.faults shelf.old < S.faults shelf.new) ⊎ (K.faults sink.old < K.faults sink.new) }
    ensures no_fault { result.status ≢ 4 →
        (S.faults shelf.new ≡ S.faults shelf.old) × (K.faults sink.new ≡ K.faults sink.old) }
    ensures load_cause { S.faults shelf.old < S.faults shelf.new →
        (usage : Usage) × IsUsage usage (texts_of words.now) × LoadCause usage (S.told shelf.old) (S.told shelf.new) }
    ensures room_cause { K.faults sink.old < K.faults sink.new →
        WordsRoomCause (texts_of words.now) (S.told shelf.old) (S.told shelf.new) (K.told sink.old) (K.told sink.new)
        result.journal.items }
    ensures does { (end : Result ℕ Stop)
        × (result.status ≡ status_of end)
        × WordsDo (texts_of words.now) (S.told shelf.old) (S.told shelf.new) (K.told sink.old) (K.told sink.new)
        result.journal.items end }
{
    puts_in_a_row();
    let journal = Vec::new(alloc);
    match usage_of(alloc, words) {
        Ok(usage) => top_still(alloc, &usage, shelf, sink),
        Err(UsageFault::Usage) => {
            let end = show_usage(sink);
            Still {
                status: status_of(&end),
                journal,
            }
        }
        Err(UsageFault::Memory) => Still { status: 5, journal },
    }
}
