//! Which bytes are letters, digits and parts of words.
#![tactic(auto)]

ghost use Rattle.std.specs.Prelude.{◌≡◌};
ghost use Rattle.std.specs.List.{prefix_len};
ghost use Rattle.byte_classes.specs.Classes as classes;

/// `a` to `z`.
pub fn is_lower(b: u8) -> bool
    ensures { result ≡ classes.is_lower b }
{
    b'a' <= b && b <= b'z'
}

/// `0` to `9`.
pub fn is_digit(b: u8) -> bool
    ensures { result ≡ classes.is_digit b }
{
    b'0' <= b && b <= b'9'
}

/// What may follow in a word or a name: a lower-case letter, a digit or `_`.
pub fn is_word_byte(b: u8) -> bool
    ensures { result ≡ classes.is_word_byte b }
{
    is_lower(b) || is_digit(b) || b == b'_'
}

/// How many bytes at the front may follow in a word.
pub fn word_len(bytes: &[u8]) -> usize
    ensures { result ≡ prefix_len classes.is_word_byte bytes.now }
{
    bytes.iter().take_while(|b| is_word_byte(**b)).count()
}

/// How many digits stand at the front.
pub fn digits_len(bytes: &[u8]) -> usize
    ensures { result ≡ prefix_len classes.is_digit bytes.now }
{
    bytes.iter().take_while(|b| is_digit(**b)).count()
}
