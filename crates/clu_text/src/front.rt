//! The longest spelling at the front of the bytes.

ghost use Rattle.std.specs.Prelude.{◌≡◌, ◌↔◌, ◌≤◌, ◌^◌, slice_index, IsTrue, Some, ◌∷◌};
ghost use Rattle.byte_classes.specs.Classes as classes;
ghost use Rattle.clu_text.specs.Spelling as spelled;
ghost use Rattle.clu_text.specs.Front.{FrontAnswer, BeginsOther};
ghost use Rattle.clu_text.specs.Front as plan;

use crate::byte::{is_pair, is_single};
use crate::quoted::find_parts;
use crate::token::TokenKind;
use byte_classes::{digits_len, word_len};

/// The most bytes that a word has.
const LONGEST_WORD: usize = 64;

/// The most parts that a string has.
const LONGEST_STRING: usize = 1024;

/// A spelling: of what kind, and how many bytes it has.
#[derive(Clone, Copy, Debug)]
pub struct Spelling {
    pub kind: TokenKind,
    pub len: usize,
}

/// The word at the front, unless it is too long.
fn word(bytes: &[u8]) -> Option<Spelling>
    requires { IsTrue (classes.is_lower (slice_index bytes.now 0)) }
    ensures { FrontAnswer bytes.now result }
{
    let len = word_len(bytes);
    if len > LONGEST_WORD {
        return None;
    }
    Some(Spelling {
        kind: TokenKind::Word,
        len,
    })
}

/// The int at the front.
fn int(bytes: &[u8]) -> Spelling
    requires { IsTrue (classes.is_digit (slice_index bytes.now 0)) }
    ensures { FrontAnswer bytes.now (Some result) }
{
    Spelling {
        kind: TokenKind::Int,
        len: digits_len(bytes),
    }
}

/// The char whose first quote stands before these bytes.
fn char(bytes: &[u8]) -> Option<Spelling>
    ensures { FrontAnswer (39 ∷ bytes.now) result }
{
    let quoted = find_parts(bytes, b'\'')?;
    if quoted.parts != 1 {
        return None;
    }
    Some(Spelling {
        kind: TokenKind::Char,
        len: quoted.len + 1,
    })
}

/// The string whose first quote stands before these bytes, unless it is too long.
fn string(bytes: &[u8]) -> Option<Spelling>
    ensures { FrontAnswer (34 ∷ bytes.now) result }
{
    let quoted = find_parts(bytes, b'"')?;
    if quoted.parts > LONGEST_STRING {
        return None;
    }
    Some(Spelling {
        kind: TokenKind::Str,
        len: quoted.len + 1,
    })
}

/// The length of the longest symbol at the front, or 0.
#[tactic(auto, unfolding(crate::specs::Front::symbol_len))]
fn symbol_len(bytes: &[u8]) -> usize
    ensures { result ≡ plan.symbol_len bytes.now }
{
    match bytes {
        [first, second, ..] if is_pair(*first, *second) => 2,
        [first, ..] if is_single(*first) => 1,
        _ => 0,
    }
}

/// The symbol at the front, where neither a word nor a number nor a quote stands there.
fn symbol(bytes: &[u8]) -> Option<Spelling>
    requires { BeginsOther (slice_index bytes.now 0) }
    ensures { FrontAnswer bytes.now result }
{
    let len = symbol_len(bytes);
    if len == 0 {
        return None;
    }
    Some(Spelling {
        kind: TokenKind::Symbol,
        len,
    })
}

/// The token at the front: the longest spelling there, if it isn't too long.
pub fn front(bytes: &[u8]) -> Option<Spelling>
    ensures { FrontAnswer bytes.now result }
{
    let [first, rest @ ..] = bytes else {
        return None;
    };
    match *first {
        b'a'..=b'z' => word(bytes),
        b'0'..=b'9' => Some(int(bytes)),
        b'\'' => char(rest),
        b'"' => string(rest),
        _ => symbol(bytes),
    }
}

/// Whether the digits spell a number above 2^63-1.
pub fn is_wide(digits: &[u8]) -> bool
    requires { spelled.IsInt digits.now }
    ensures { IsTrue result ↔ (2 ^ 63 ≤ spelled.int_value digits.now) }
{
    const GREATEST: u64 = 9223372036854775807;
    let mut number: u64 = 0;
    for digit in digits {
        let value = u64::from(*digit - b'0');
        if number > (GREATEST - value) / 10 {
            return true;
        }
        number = number * 10 + value;
    }
    false
}
