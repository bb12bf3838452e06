//! Reading the words of an event.

ghost use Rattle.journal_text.specs.Reading as reading;
ghost use Rattle.journal_text.specs.Reading.{Gives};

use crate::fault::LineFault;
use crate::field::{LARGEST, line_number, node_number, positive, word_number};
use crate::question::question;
use crate::word::{Word, next_word};
use std::alloc::Global;
use world_types::{Event, SayWord};

const MOST_STEPS: u64 = 64;

/// The event whose words are at the front, each behind a space.
#[tactic(auto, unfolding(crate::specs::Reading::event_at))]
pub fn event(alloc: Global, bytes: &[u8]) -> Result<(Event, &[u8]), LineFault>
    ensures { Gives (λ x. (x.0, x.1.now)) result (reading.event_at bytes.now) }
{
    let (word, rest) = next_word(bytes)?;
    match word {
        Word::HaltAll => Ok((Event::HaltAll, rest)),
        Word::ResumeAll => resume_all(rest),
        Word::Say => say(rest),
        Word::Quit => Ok((Event::Quit, rest)),
        _ => of_node(alloc, word, rest),
    }
}

/// The event of a node, by its word and what stands behind it.
#[tactic(auto, unfolding(crate::specs::Reading::of_node_at))]
fn of_node(alloc: Global, word: Word, bytes: &[u8]) -> Result<(Event, &[u8]), LineFault>
    ensures { Gives (λ x. (x.0, x.1.now)) result (reading.of_node_at word bytes.now) }
{
    let (node, rest) = node_number(bytes)?;
    match word {
        Word::Turn => turn(node, rest),
        Word::Packet => packet(node, rest),
        Word::Tick => Ok((Event::Tick { node }, rest)),
        Word::Stop => Ok((Event::Stop { node }, rest)),
        Word::Halt => Ok((Event::Halt { node }, rest)),
        Word::Resume => Ok((Event::Resume { node }, rest)),
        Word::Ask => ask(alloc, node, rest),
        Word::Answer => Ok((Event::Answer { node }, rest)),
        Word::Set => set(node, rest),
        Word::Clear => clear(node, rest),
        _ => Err(LineFault::Bad),
    }
}

#[tactic(auto, unfolding(crate::specs::Reading::turn_at))]
fn turn(node: u32, bytes: &[u8]) -> Result<(Event, &[u8]), LineFault>
    ensures { Gives (λ x. (x.0, x.1.now)) result (reading.turn_at node bytes.now) }
{
    let (steps, rest) = positive(bytes, MOST_STEPS)?;
    let (reading, rest) = word_number(rest, LARGEST)?;
    let turn = Event::Turn {
        node,
        steps: steps as u32,
        reading,
    };
    Ok((turn, rest))
}

#[tactic(auto, unfolding(crate::specs::Reading::packet_at))]
fn packet(node: u32, bytes: &[u8]) -> Result<(Event, &[u8]), LineFault>
    ensures { Gives (λ x. (x.0, x.1.now)) result (reading.packet_at node bytes.now) }
{
    let (from, rest) = node_number(bytes)?;
    let (index, rest) = word_number(rest, LARGEST)?;
    Ok((Event::Packet { node, from, index }, rest))
}

#[tactic(auto, unfolding(crate::specs::Reading::ask_at))]
fn ask(alloc: Global, node: u32, bytes: &[u8]) -> Result<(Event, &[u8]), LineFault>
    ensures { Gives (λ x. (x.0, x.1.now)) result (reading.ask_at node bytes.now) }
{
    let (question, rest) = question(alloc, bytes)?;
    Ok((Event::Ask { node, question }, rest))
}

#[tactic(auto, unfolding(crate::specs::Reading::set_at))]
fn set(node: u32, bytes: &[u8]) -> Result<(Event, &[u8]), LineFault>
    ensures { Gives (λ x. (x.0, x.1.now)) result (reading.set_at node bytes.now) }
{
    let (line, rest) = line_number(bytes)?;
    Ok((Event::Set { node, line }, rest))
}

#[tactic(auto, unfolding(crate::specs::Reading::clear_at))]
fn clear(node: u32, bytes: &[u8]) -> Result<(Event, &[u8]), LineFault>
    ensures { Gives (λ x. (x.0, x.1.now)) result (reading.clear_at node bytes.now) }
{
    let (line, rest) = line_number(bytes)?;
    Ok((Event::Clear { node, line }, rest))
}

#[tactic(auto, unfolding(crate::specs::Reading::resume_all_at))]
fn resume_all(bytes: &[u8]) -> Result<(Event, &[u8]), LineFault>
    ensures { Gives (λ x. (x.0, x.1.now)) result (reading.resume_all_at bytes.now) }
{
    let (until, rest) = until(bytes)?;
    Ok((Event::ResumeAll { until }, rest))
}

/// The time behind a space, where there is one.
#[tactic(auto, unfolding(crate::specs::Reading::until_at))]
fn until(bytes: &[u8]) -> Result<(Option<u64>, &[u8]), LineFault>
    ensures { Gives (λ x. (x.0, x.1.now)) result (reading.until_at bytes.now) }
{
    match bytes {
        [b' ', ..] => {
            let (time, rest) = word_number(bytes, LARGEST)?;
            Ok((Some(time), rest))
        }
        _ => Ok((None, bytes)),
    }
}

#[tactic(auto, unfolding(crate::specs::Reading::say_at))]
fn say(bytes: &[u8]) -> Result<(Event, &[u8]), LineFault>
    ensures { Gives (λ x. (x.0, x.1.now)) result (reading.say_at bytes.now) }
{
    let (word, rest) = say_word(bytes)?;
    Ok((Event::Say { word }, rest))
}

/// Why a line of the console was no command.
#[tactic(auto, unfolding(crate::specs::Reading::say_word_at))]
fn say_word(bytes: &[u8]) -> Result<(SayWord, &[u8]), LineFault>
    ensures { Gives (λ x. (x.0, x.1.now)) result (reading.say_word_at bytes.now) }
{
    let (word, rest) = next_word(bytes)?;
    match word {
        Word::Unknown => Ok((SayWord::Unknown, rest)),
        Word::Node => Ok((SayWord::NoNode, rest)),
        Word::Changes => Ok((SayWord::Changes, rest)),
        _ => Err(LineFault::Bad),
    }
}
