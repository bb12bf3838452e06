ghost use Rattle.std.specs.Prelude.{◌≡◌};
ghost use Rattle.journal_text.specs.Reading as reading;
ghost use Rattle.journal_text.specs.Reading.{Finds, Gives};

use crate::fault::LineFault;
use crate::field::after;

/// A word that stands in a line for itself.
#[derive(Clone, Copy, Debug, PartialEq, Eq, Drop)]
pub enum Word {
    Turn,
    Packet,
    Tick,
    Stop,
    HaltAll,
    Halt,
    ResumeAll,
    Resume,
    Ask,
    Answer,
    Set,
    Clear,
    Say,
    Quit,
    Ps,
    Where,
    Caller,
    Vars,
    Print,
    Calls,
    Time,
    Once,
    Maybe,
    Unknown,
    Node,
    Changes,
}

/// All words; one with which another begins stands behind it.
const WORDS: [Word; 26] = [
    Word::Turn,
    Word::Packet,
    Word::Tick,
    Word::Stop,
    Word::HaltAll,
    Word::Halt,
    Word::ResumeAll,
    Word::Resume,
    Word::Ask,
    Word::Answer,
    Word::Set,
    Word::Clear,
    Word::Say,
    Word::Quit,
    Word::Ps,
    Word::Where,
    Word::Caller,
    Word::Vars,
    Word::Print,
    Word::Calls,
    Word::Time,
    Word::Once,
    Word::Maybe,
    Word::Unknown,
    Word::Node,
    Word::Changes,
];

/// How the word is spelled.
pub fn spelling(word: Word) -> &'static [u8]
    ensures { result.now ≡ reading.word_text word }
{
    match word {
        Word::Turn => b"turn",
        Word::Packet => b"packet",
        Word::Tick => b"tick",
        Word::Stop => b"stop",
        Word::HaltAll => b"haltall",
        Word::Halt => b"halt",
        Word::ResumeAll => b"resumeall",
        Word::Resume => b"resume",
        Word::Ask => b"ask",
        Word::Answer => b"answer",
        Word::Set => b"set",
        Word::Clear => b"clear",
        Word::Say => b"say",
        Word::Quit => b"quit",
        Word::Ps => b"ps",
        Word::Where => b"where",
        Word::Caller => b"caller",
        Word::Vars => b"vars",
        Word::Print => b"print",
        Word::Calls => b"calls",
        Word::Time => b"time",
        Word::Once => b"once",
        Word::Maybe => b"maybe",
        Word::Unknown => b"unknown",
        Word::Node => b"node",
        Word::Changes => b"changes",
    }
}

/// The first of the words with which the bytes begin, and the bytes behind it.
fn first_word<'a>(words: &[Word], bytes: &'a [u8]) -> Option<(Word, &'a [u8])>
    ensures { Finds (λ x. (x.0, x.1.now)) result (reading.first_word words.now bytes.now) }
{
    for word in words {
        if let Some(rest) = bytes.strip_prefix(spelling(*word)) {
            return Some((*word, rest));
        }
    }
    None
}

/// The word behind the space at the front, and the bytes behind the word.
#[tactic(auto, unfolding(crate::specs::Reading::word_at))]
pub fn next_word(bytes: &[u8]) -> Result<(Word, &[u8]), LineFault>
    ensures { Gives (λ x. (x.0, x.1.now)) result (reading.word_at bytes.now) }
{
    let bytes = after(bytes, b" ")?;
    match first_word(&WORDS, bytes) {
        Some(found) => Ok(found),
        None => Err(LineFault::Bad),
    }
}
