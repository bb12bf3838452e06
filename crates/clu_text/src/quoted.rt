//! The parts of chars and strings.

ghost use Rattle.std.specs.Prelude.{◌≢◌};
ghost use Rattle.clu_text.specs.Front.{QuotedAnswer};

use crate::byte::{is_escape, is_printable};

/// Parts, and the quote that closes them.
#[derive(Clone, Copy, Debug)]
pub struct Quoted {
    /// How many bytes they have, with the closing quote.
    pub len: usize,
    /// How many parts there are. An escape is one.
    pub parts: usize,
}

/// The parts behind a quote, up to the next quote that closes them.
pub fn find_parts(bytes: &[u8], quote: u8) -> Option<Quoted>
    requires { quote ≢ 92 }
    ensures { QuotedAnswer quote bytes.now result }
{
    let mut parts = 0;
    let mut escaping = false;
    for (at, b) in bytes.iter().enumerate() {
        if escaping {
            if !is_escape(*b) {
                return None;
            }
            escaping = false;
            parts += 1;
        } else if *b == quote {
            return Some(Quoted { len: at + 1, parts });
        } else if *b == b'\\' {
            escaping = true;
        } else if is_printable(*b) {
            parts += 1;
        } else {
            return None;
        }
    }
    None
}
