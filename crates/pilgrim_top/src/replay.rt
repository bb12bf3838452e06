//! A program and a script of events that it goes through.

ghost use Rattle.std.specs.Prelude.{◌≡◌, ◌≤◌, []};
ghost use Rattle.pilgrim_top.specs.Ends.{CountsFaults, CountsPuts, Says};
ghost use Rattle.pilgrim_top.specs.Replay.{Replays, refused_text};

use crate::script::run_script;
use crate::stop::{Stop, say};
use clu_reader::{AcceptFault, accept};
use outside_edge::{LoadFault, Shelf, Sink, puts_in_a_row};
use std::alloc::Global;
use world_rules::{erasing_laws, plain_law};
use world_types::Entry;

/// A program has at most this many bytes, 1 MiB.
const MOST_BYTES: usize = 1_048_576;

/// Ends with the refusal of a program, at a line.
fn refuse<K: Sink>(alloc: Global, sink: &mut K, line: u32) -> Result<u8, Stop>
    ensures counts { CountsPuts (K.faults sink.old) (K.faults sink.new) result }
    ensures says { Says (refused_text line) 2 (K.told sink.old) (K.told sink.new) result }
{
    puts_in_a_row();
    let Ok(text) = format!(in alloc; "program refused at line {line}\n") else {
        return Err(Stop::Memory);
    };
    say(sink, text.as_bytes(), 2)
}

/// Loads a program and a script, and runs the script.
pub fn replay<S: Shelf, K: Sink>(
    alloc: Global,
    file: &str,
    script: &str,
    shelf: &mut S,
    sink: &mut K,
    journal: &mut Vec<Entry>,
) -> Result<u8, Stop>
    requires { journal.old.items ≡ [] }
    ensures counts { CountsFaults (S.faults shelf.old) (S.faults shelf.new) (K.faults sink.old) (K.faults sink.new)
        result }
    ensures replays { Replays file.now script.now (S.told shelf.old) (S.told shelf.new) (K.told sink.old)
        (K.told sink.new) journal.new.items result }
{
    puts_in_a_row();
    let text = match shelf.load(alloc, file) {
        Ok(text) => text,
        Err(LoadFault::Failed) => return Err(Stop::Unread),
        Err(LoadFault::Memory) => return Err(Stop::Memory),
    };
    if text.len() > MOST_BYTES {
        return say(sink, b"program too long\n", 2);
    }
    let program = match accept(alloc, text.as_slice()) {
        Ok(program) => program,
        Err(AcceptFault::Refused(line)) => return refuse(alloc, sink, line),
        Err(AcceptFault::Memory) => return Err(Stop::Memory),
    };
    let lines = match shelf.load(alloc, script) {
        Ok(lines) => lines,
        Err(LoadFault::Failed) => return Err(Stop::Unread),
        Err(LoadFault::Memory) => return Err(Stop::Memory),
    };
    erasing_laws();
    plain_law();
    run_script(alloc, &program, lines.as_slice(), sink, journal)
}
