//! Reading the words of a question.

ghost use Rattle.journal_text.specs.Reading as reading;
ghost use Rattle.journal_text.specs.Reading.{Gives};

use crate::fault::LineFault;
use crate::field::word_number;
use crate::name::word_name;
use crate::word::{Word, next_word};
use std::alloc::Global;
use world_types::{Kind, Question};

/// The largest number of a process or of a call.
const LARGEST_SERIAL: u64 = 1 << 62;

/// The question whose words are at the front, each behind a space.
#[tactic(auto, unfolding(crate::specs::Reading::question_at))]
pub fn question(alloc: Global, bytes: &[u8]) -> Result<(Question, &[u8]), LineFault>
    ensures { Gives (λ x. (x.0, x.1.now)) result (reading.question_at bytes.now) }
{
    let (word, rest) = next_word(bytes)?;
    match word {
        Word::Ps => Ok((Question::Ps, rest)),
        Word::Where => trace(rest),
        Word::Caller => caller(rest),
        Word::Vars => vars(rest),
        Word::Print => print(alloc, rest),
        Word::Calls => Ok((Question::Calls, rest)),
        Word::Time => Ok((Question::Time, rest)),
        _ => Err(LineFault::Bad),
    }
}

#[tactic(auto, unfolding(crate::specs::Reading::trace_at))]
fn trace(bytes: &[u8]) -> Result<(Question, &[u8]), LineFault>
    ensures { Gives (λ x. (x.0, x.1.now)) result (reading.trace_at bytes.now) }
{
    let (process, rest) = word_number(bytes, LARGEST_SERIAL)?;
    Ok((Question::Trace { process }, rest))
}

#[tactic(auto, unfolding(crate::specs::Reading::caller_at))]
fn caller(bytes: &[u8]) -> Result<(Question, &[u8]), LineFault>
    ensures { Gives (λ x. (x.0, x.1.now)) result (reading.caller_at bytes.now) }
{
    let (kind, rest) = kind(bytes)?;
    let (seq, rest) = word_number(rest, LARGEST_SERIAL)?;
    Ok((Question::Caller { kind, seq }, rest))
}

#[tactic(auto, unfolding(crate::specs::Reading::kind_at))]
fn kind(bytes: &[u8]) -> Result<(Kind, &[u8]), LineFault>
    ensures { Gives (λ x. (x.0, x.1.now)) result (reading.kind_at bytes.now) }
{
    let (word, rest) = next_word(bytes)?;
    match word {
        Word::Once => Ok((Kind::Once, rest)),
        Word::Maybe => Ok((Kind::Maybe, rest)),
        _ => Err(LineFault::Bad),
    }
}

#[tactic(auto, unfolding(crate::specs::Reading::vars_at))]
fn vars(bytes: &[u8]) -> Result<(Question, &[u8]), LineFault>
    ensures { Gives (λ x. (x.0, x.1.now)) result (reading.vars_at bytes.now) }
{
    let (process, rest) = word_number(bytes, LARGEST_SERIAL)?;
    Ok((Question::Vars { process }, rest))
}

#[tactic(auto, unfolding(crate::specs::Reading::print_at))]
fn print(alloc: Global, bytes: &[u8]) -> Result<(Question, &[u8]), LineFault>
    ensures { Gives (λ x. (x.0, x.1.now)) result (reading.print_at bytes.now) }
{
    let (process, rest) = word_number(bytes, LARGEST_SERIAL)?;
    let (name, rest) = word_name(alloc, rest)?;
    Ok((Question::Print { process, name }, rest))
}
