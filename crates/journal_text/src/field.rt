ghost use Rattle.std.specs.Prelude.{◌≡◌, ◌≤◌, ◌<◌, ◌-◌, ◌^◌, length, IfSome, IfOk};
ghost use Rattle.journal_text.specs.Reading.{Finds, Gives, text_at, digit_at, number_at, word_number_at, positive_at};

use crate::fault::LineFault;

/// The largest stamp, reading, place of a packet or time.
pub const LARGEST: u64 = (1 << 62) - 1;

const LARGEST_NODE: u64 = (1 << 32) - 1;

const LAST_LINE: u64 = 1_048_576;

/// The bytes behind the text that they begin with.
pub fn after<'a>(bytes: &'a [u8], text: &[u8]) -> Result<&'a [u8], LineFault>
    ensures { Gives (λ rest. rest.now) result (text_at text.now bytes.now) }
{
    match bytes.strip_prefix(text) {
        Some(rest) => Ok(rest),
        None => Err(LineFault::Bad),
    }
}

/// The value of the digit at the front, and the bytes behind it.
fn digit(bytes: &[u8]) -> Option<(u64, &[u8])>
    ensures found { Finds (λ x. (x.0, x.1.now)) result (digit_at bytes.now) }
    ensures value { IfSome result (λ x. x.0 ≤ 9) }
    ensures shorter { IfSome result (λ x. length x.1.now < length bytes.now) }
{
    let (byte, rest) = bytes.split_first()?;
    if *byte < b'0' || *byte > b'9' {
        return None;
    }
    Some((u64::from(*byte - b'0'), rest))
}

/// The number at the front, which is at most the largest, and the bytes behind its last digit.
#[tactic(auto, unfolding(crate::specs::Reading::number_at))]
pub fn number(bytes: &[u8], largest: u64) -> Result<(u64, &[u8]), LineFault>
    requires { 9 ≤ largest }
    ensures read { Gives (λ x. (x.0, x.1.now)) result (number_at largest bytes.now) }
    ensures small { IfOk result (λ x. x.0 ≤ largest) }
{
    let Some((mut value, mut rest)) = digit(bytes) else {
        return Err(LineFault::Bad);
    };
    while let Some((next, others)) = digit(rest) {
        if value == 0 || value > (largest - next) / 10 {
            return Err(LineFault::Bad);
        }
        value = value * 10 + next;
        rest = others;
    }
    Ok((value, rest))
}

/// The number behind the space at the front.
#[tactic(auto, unfolding(crate::specs::Reading::word_number_at))]
pub fn word_number(bytes: &[u8], largest: u64) -> Result<(u64, &[u8]), LineFault>
    requires { 9 ≤ largest }
    ensures read { Gives (λ x. (x.0, x.1.now)) result (word_number_at largest bytes.now) }
    ensures small { IfOk result (λ x. x.0 ≤ largest) }
{
    number(after(bytes, b" ")?, largest)
}

/// The number from 1 on behind the space at the front.
#[tactic(auto, unfolding(crate::specs::Reading::positive_at))]
pub fn positive(bytes: &[u8], largest: u64) -> Result<(u64, &[u8]), LineFault>
    requires { 9 ≤ largest }
    ensures read { Gives (λ x. (x.0, x.1.now)) result (positive_at largest bytes.now) }
    ensures small { IfOk result (λ x. x.0 ≤ largest) }
{
    let (value, rest) = word_number(bytes, largest)?;
    if value == 0 {
        return Err(LineFault::Bad);
    }
    Ok((value, rest))
}

/// The number of a node behind the space at the front.
pub fn node_number(bytes: &[u8]) -> Result<(u32, &[u8]), LineFault>
    ensures { Gives (λ x. (x.0, x.1.now)) result (word_number_at (2 ^ 32 - 1) bytes.now) }
{
    let (node, rest) = word_number(bytes, LARGEST_NODE)?;
    Ok((node as u32, rest))
}

/// The line of a program behind the space at the front.
pub fn line_number(bytes: &[u8]) -> Result<(u32, &[u8]), LineFault>
    ensures { Gives (λ x. (x.0, x.1.now)) result (positive_at 1048576 bytes.now) }
{
    let (line, rest) = positive(bytes, LAST_LINE)?;
    Ok((line as u32, rest))
}
