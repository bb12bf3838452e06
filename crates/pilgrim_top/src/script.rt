//! A script of events, applied line by line.

ghost use Rattle.std.specs.Prelude.{◌≡◌, ◌≤◌, ◌<◌, ◌^◌, []};
ghost use Rattle.clu_tree.specs.Typed.{IsTyped};
ghost use Rattle.debug_world.specs.Seen.{MayBeApplied};
ghost use Rattle.pilgrim_top.specs.Ends.{CountsPuts, Says};
ghost use Rattle.pilgrim_top.specs.Script.{AppliesLine, RunsScript, can_run, refusal_text};

use crate::stop::{Stop, say};
use crate::written::written;
use clu_tree::Program;
use debug_world::{DebugWorld, WorldFault};
use journal_text::{LineFault, first_line};
use outside_edge::{PutFault, Sink, puts_in_a_row};
use std::alloc::Global;
use world_rules::following_laws;
use world_types::{Entry, Event, Told};

/// A script has at most this many lines.
const MOST_LINES: u32 = 1_000_000;

/// Whether a script can have the event so far: it is a turn or a tick.
fn can_run(event: &Event) -> bool
    ensures { result ≡ can_run event.now }
{
    match event {
        Event::Turn { .. } | Event::Tick { .. } => true,
        _ => false,
    }
}

/// Applies one line, where it is legal: adds its entry to the journal, and writes it. Answers whether it was legal.
fn apply<K: Sink>(
    alloc: Global,
    world: &mut DebugWorld<'_>,
    line: &Told,
    sink: &mut K,
    journal: &mut Vec<Entry>,
) -> Result<bool, Stop>
    requires event { MayBeApplied line.now.event }
    requires early { line.now.stamp < 2 ^ 62 }
    ensures counts { CountsPuts (K.faults sink.old) (K.faults sink.new) result }
    ensures applies { AppliesLine world.old world.new journal.old.items journal.new.items (K.told sink.old)
        (K.told sink.new) line.now result }
{
    let entry = match world.apply(alloc, line) {
        Ok(entry) => entry,
        Err(WorldFault::Illegal(_)) => return Ok(false),
        Err(WorldFault::Memory) => return Err(Stop::Memory),
    };
    let Ok(text) = written(alloc, &entry) else {
        return Err(Stop::Memory);
    };
    let Ok(()) = journal.push(entry) else {
        return Err(Stop::Memory);
    };
    match sink.put(text.as_slice()) {
        Ok(()) => Ok(true),
        Err(PutFault::Failed) => Err(Stop::Cut),
        Err(PutFault::Memory) => Err(Stop::Memory),
    }
}

/// Ends with the refusal of the line behind so many.
fn refuse<K: Sink>(alloc: Global, sink: &mut K, count: u32) -> Result<u8, Stop>
    requires { count ≤ 1000000 }
    ensures counts { CountsPuts (K.faults sink.old) (K.faults sink.new) result }
    ensures says { Says (refusal_text count) 6 (K.told sink.old) (K.told sink.new) result }
{
    puts_in_a_row();
    let line = count + 1;
    let Ok(text) = format!(in alloc; "script refused at line {line}\n") else {
        return Err(Stop::Memory);
    };
    say(sink, text.as_bytes(), 6)
}

/// Applies the lines of a script in order, and writes each entry, up to the first line that is refused.
pub fn run_script<K: Sink>(
    alloc: Global,
    program: &Program,
    script: &[u8],
    sink: &mut K,
    journal: &mut Vec<Entry>,
) -> Result<u8, Stop>
    requires typed { IsTyped program.now }
    requires empty { journal.old.items ≡ [] }
    ensures counts { CountsPuts (K.faults sink.old) (K.faults sink.new) result }
    ensures runs { RunsScript program.now script.now (K.told sink.old) (K.told sink.new) journal.new.items result }
{
    puts_in_a_row();
    following_laws();
    let Ok(mut world) = DebugWorld::new(alloc, program) else {
        return Err(Stop::Memory);
    };
    let mut rest = script;
    let mut count = 0;
    while !rest.is_empty() {
        if count == MOST_LINES {
            return refuse(alloc, sink, count);
        }
        let line = match first_line(alloc, rest) {
            Ok(line) => line,
            Err(LineFault::Bad) => return refuse(alloc, sink, count),
            Err(LineFault::Memory) => return Err(Stop::Memory),
        };
        if !can_run(&line.told.event) {
            return refuse(alloc, sink, count);
        }
        match apply(alloc, &mut world, &line.told, sink, journal) {
            Ok(true) => {}
            Ok(false) => return refuse(alloc, sink, count),
            Err(stop) => return Err(stop),
        }
        rest = line.rest;
        count += 1;
    }
    Ok(0)
}
