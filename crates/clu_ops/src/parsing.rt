//! Texts read as ints.

ghost use Rattle.std.specs.Prelude.{◌≡◌, IfOk};
ghost use Rattle.std.specs.List.{list_all};
ghost use Rattle.std.specs.Char.{is_ascii_digit};
ghost use Rattle.clu_ops.specs.Ints.{magnitude as magnitude_of, is_numeral as is_a_numeral, parsed};

use crate::ends::signal;
use crate::fault::Memory;
use crate::ints::int_or_overflow;
use crate::op_end::OpEnd;
use std::alloc::Global;
use std::str;

/// What stands behind a leading `-`, or else the whole text.
fn magnitude(text: &[u8]) -> &[u8]
    ensures { result.now ≡ magnitude_of text.now }
{
    match text {
        [b'-', digits @ ..] => digits,
        _ => text,
    }
}

fn has_digits_alone(text: &[u8]) -> bool
    ensures { result ≡ list_all is_ascii_digit text.now }
{
    text.iter().all(|byte| byte.is_ascii_digit())
}

/// Whether the text has at least one digit, and nothing else.
#[tactic(auto, using(crate::proofs::Numerals::is_numeral_from_digits))]
fn is_numeral(text: &[u8]) -> bool
    ensures { result ≡ is_a_numeral text.now }
{
    !text.is_empty() && has_digits_alone(text)
}

/// The int that a text writes: a `-` or none, and at least one digit.
pub(crate) fn parse(alloc: Global, text: &[u8]) -> Result<OpEnd, Memory>
    ensures { IfOk result (λ e. e ≡ parsed text.now) }
{
    if !is_numeral(magnitude(text)) {
        return signal(alloc, b"bad_format");
    }
    let Ok(numeral) = str::from_utf8(text) else {
        unreachable!();
    };
    int_or_overflow(alloc, i64::from_str_radix(numeral, 10).ok())
}
