//! Reading a name.

ghost use Rattle.std.specs.Prelude.{◌≡◌, ◌≤◌, length, take};
ghost use Rattle.std.specs.List.{prefix_len};
ghost use Rattle.byte_classes.specs.Classes.{is_word_byte};
ghost use Rattle.journal_text.specs.Reading as reading;
ghost use Rattle.journal_text.specs.Reading.{Gives};

use crate::fault::LineFault;
use crate::field::after;
use byte_classes::{is_lower, word_len};
use std::alloc::Global;
use world_types::NameText;

/// The most bytes that a name may have.
const LONGEST_NAME: usize = 64;

/// How many bytes at the front may stand in a name, up to the most that it has.
fn name_len(bytes: &[u8]) -> usize
    ensures len { result ≡ prefix_len is_word_byte (take 64 bytes.now) }
    ensures inside { result ≤ length bytes.now }
{
    word_len(&bytes[..LONGEST_NAME.min(bytes.len())])
}

/// The name at the front, and the bytes behind it.
#[tactic(auto, unfolding(crate::specs::Reading::name_at))]
fn name(alloc: Global, bytes: &[u8]) -> Result<(NameText, &[u8]), LineFault>
    ensures { Gives (λ x. (x.0, x.1.now)) result (reading.name_at bytes.now) }
{
    let [first, ..] = bytes else {
        return Err(LineFault::Bad);
    };
    if !is_lower(*first) {
        return Err(LineFault::Bad);
    }
    let (name, rest) = bytes.split_at(name_len(bytes));
    Ok((NameText::from_vec(Vec::from_slice(alloc, name)?), rest))
}

/// The name behind the space at the front.
#[tactic(auto, unfolding(crate::specs::Reading::word_name_at))]
pub fn word_name(alloc: Global, bytes: &[u8]) -> Result<(NameText, &[u8]), LineFault>
    ensures { Gives (λ x. (x.0, x.1.now)) result (reading.word_name_at bytes.now) }
{
    name(alloc, after(bytes, b" ")?)
}
