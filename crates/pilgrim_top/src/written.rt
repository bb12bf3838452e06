//! What is written for an entry.

ghost use Rattle.std.specs.Prelude.{◌≡◌, ◌∷◌, [], ◌++◌, IfOk};
ghost use Rattle.world_rules.specs.Transcript.{printed, say_text, written_by};

use std::alloc::{AllocError, Global};
use world_types::{Bytes, Entry, Event, Line, SayWord};

/// The lines, each with its end.
fn printed(alloc: Global, lines: &[Line]) -> Result<Vec<u8>, AllocError>
    ensures { IfOk result (λ text. text.items ≡ printed lines.now) }
{
    let mut text = Vec::new(alloc);
    for line in lines {
        text.extend_from_slice(line.text.as_slice())?;
        text.push(b'\n')?;
    }
    Ok(text)
}

/// A line with its end.
fn ended(alloc: Global, line: &[u8]) -> Result<Vec<u8>, AllocError>
    ensures { IfOk result (λ text. text.items ≡ line.now ++ 10 ∷ []) }
{
    let mut text = Vec::from_slice(alloc, line)?;
    text.push(b'\n')?;
    Ok(text)
}

/// Why a line of the console was no command.
fn say_text(word: SayWord) -> &'static [u8]
    ensures { result.now ≡ say_text word }
{
    match word {
        SayWord::Unknown => b"unknown command",
        SayWord::NoNode => b"no such node",
        SayWord::Changes => b"refused: changes state",
    }
}

/// What is written for an entry.
pub fn written(alloc: Global, entry: &Entry) -> Result<Vec<u8>, AllocError>
    ensures { IfOk result (λ text. text.items ≡ written_by entry.now.event entry.now.effects) }
{
    match &entry.event {
        Event::Turn { .. } | Event::Packet { .. } | Event::Tick { .. } | Event::Resume { .. } => {
            printed(alloc, entry.effects.lines.as_slice())
        }
        Event::Stop { .. } | Event::Answer { .. } => {
            ended(alloc, entry.effects.shown.as_slice())
        }
        Event::Say { word } => ended(alloc, say_text(*word)),
        _ => Ok(Vec::new(alloc)),
    }
}
