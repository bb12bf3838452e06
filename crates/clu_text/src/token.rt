/// What kind of token it is. Whether a word is reserved is the reader's matter.
#[derive(Clone, Copy, Debug, PartialEq, Eq)]
pub enum TokenKind {
    /// A lower-case letter, and behind it lower-case letters, digits and `_`: 64 bytes at most.
    Word,
    /// Digits, with a value of at most 2^63-1. There may be any number of zeros in front.
    Int,
    /// One part in `'`.
    Char,
    /// At most 1,024 parts in `"`.
    Str,
    /// One of the 26 symbols.
    Symbol,
}

/// A token: the bytes of the text from `from` to before `to`.
#[derive(Clone, Copy, Debug, PartialEq, Eq)]
pub struct Token {
    pub kind: TokenKind,
    /// The place of its first byte, counted from 0.
    pub from: u32,
    /// The place behind its last byte.
    pub to: u32,
    /// The line of its first byte, counted from 1.
    pub line: u32,
}
