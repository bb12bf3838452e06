//! What a byte may be.

ghost use Rattle.std.specs.Prelude.{◌≡◌};
ghost use Rattle.std.specs.Option.{is_some};
ghost use Rattle.byte_classes.specs.Classes.{within};
ghost use Rattle.clu_text.specs.Spelling as spelling;
ghost use Rattle.clu_text.specs.Tokens as text;
ghost use Rattle.clu_text.specs.Front as front;

/// A tab, the end of a line, a carriage return or a space.
pub fn is_blank(b: u8) -> bool
    ensures { result ≡ text.is_blank b }
{
    b == b'\t' || b == b'\n' || b == b'\r' || b == b' '
}

/// What stands for itself in a char or a string, but for `\` and the quote in use.
pub fn is_printable(b: u8) -> bool
    ensures { result ≡ within 32 126 b }
{
    b' ' <= b && b <= b'~'
}

/// What may stand behind `\`.
pub fn is_escape(b: u8) -> bool
    ensures { result ≡ is_some (spelling.escaped b) }
{
    b == b'n' || b == b't' || b == b'\\' || b == b'\'' || b == b'"'
}

/// The symbols of one byte.
pub fn is_single(b: u8) -> bool
    ensures { result ≡ front.is_single b }
{
    b"$()[]{},.:=<>+-*/&|~".contains(&b)
}

/// The symbols of two bytes.
pub fn is_pair(first: u8, second: u8) -> bool
    ensures { result ≡ front.is_pair first second }
{
    match second {
        b'=' => first == b':' || first == b'~' || first == b'<' || first == b'>',
        b'/' | b'|' => first == second,
        _ => false,
    }
}
