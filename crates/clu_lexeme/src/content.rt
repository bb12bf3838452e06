//! What digits and quoted bytes stand for.

ghost use Rattle.std.specs.Prelude.{◌≡◌, ◌≢◌, ◌<◌, ◌^◌, [], List, ℕ, pos, IfOk, MatchOption, IsSome};
ghost use Rattle.clu_text.specs.Spelling.{HasParts, IsInt, int_value, escaped};
ghost use Rattle.clu_lexeme.specs.Parts.{IsFirstPart};

use std::alloc::{AllocError, Global};

/// The number that digits spell, which is below 2^63.
pub fn number(digits: &[u8]) -> i64
    requires spelled { IsInt digits.now }
    requires in_range { int_value digits.now < 2 ^ 63 }
    ensures { result ≡ pos (int_value digits.now) }
{
    let mut number: u64 = 0;
    for digit in digits {
        number = number * 10 + u64::from(*digit - b'0');
    }
    number as i64
}

/// What a byte behind `\` stands for.
fn stands_for(byte: u8) -> u8
    requires { IsSome (escaped byte) }
    ensures { escaped byte ≡ Some result }
{
    match byte {
        b'n' => b'\n',
        b't' => b'\t',
        other => other,
    }
}

/// What the first part stands for, and the bytes behind it; nothing where the closing quote comes first.
fn first_part<'a>(bytes: &'a [u8], quote: u8) -> Option<(u8, &'a [u8])>
    requires quoted { (content : List ℕ) × HasParts quote bytes.now content }
    requires other { quote ≢ 92 }
    ensures { MatchOption result (HasParts quote bytes.now []) (λ p. IsFirstPart quote bytes.now p.0 p.1.now) }
{
    let (first, rest) = bytes.split_first()?;
    if *first == quote {
        return None;
    }
    if *first != b'\\' {
        return Some((*first, rest));
    }
    let (second, behind) = rest.split_first()?;
    Some((stands_for(*second), behind))
}

/// What the bytes behind a quote stand for, up to the quote that closes them.
pub fn content(alloc: Global, bytes: &[u8], quote: u8) -> Result<Vec<u8>, AllocError>
    requires quoted { (content : List ℕ) × HasParts quote bytes.now content }
    requires other { quote ≢ 92 }
    ensures { IfOk result (λ found. HasParts quote bytes.now found.items) }
{
    let mut found = Vec::new(alloc);
    let mut left = bytes;
    while let Some((byte, rest)) = first_part(left, quote) {
        found.push(byte)?;
        left = rest;
    }
    Ok(found)
}
