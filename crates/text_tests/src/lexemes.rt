//! What tokens are to the grammar.

use crate::lexemes::Shown::{Char, Int, Key, Name, Str};
use clu_lexeme::{lexemes, no_tokens_are_two_lists};
use clu_text::tokens;
use clu_tree::{Key as Reserved, Lexeme};
use std::alloc::Global;
use std::process::Abort;

/// A lexeme without its line.
#[derive(Clone, Copy)]
enum Shown {
    Name(&'static [u8]),
    Int(i64),
    Char(u8),
    Str(&'static [u8]),
    Key(Reserved),
}

/// Whether it is this one, on this line.
fn is(lexeme: &Lexeme, shown: Shown, at: u32) -> bool {
    match (lexeme, shown) {
        (Lexeme::Name(name, line), Name(wanted)) => name.as_slice() == wanted && *line == at,
        (Lexeme::Int(number, line), Int(wanted)) => *number == wanted && *line == at,
        (Lexeme::Char(byte, line), Char(wanted)) => *byte == wanted && *line == at,
        (Lexeme::Str(content, line), Str(wanted)) => content.as_slice() == wanted && *line == at,
        (Lexeme::Key(key, line), Key(wanted)) => *key == wanted && *line == at,
        _ => false,
    }
}

/// Whether the lexemes of a text are so many, and the one at a place is this, on this line.
fn has(
    rt: &impl Abort,
    alloc: Global,
    text: &[u8],
    count: usize,
    place: usize,
    shown: Shown,
    line: u32,
) -> bool {
    assert!(rt; text.len() <= 1_048_576);
    let found = tokens(alloc, text).expect(rt, "tokens");
    let all = lexemes(alloc, text, found.as_slice()).expect(rt, "memory");
    match all.as_slice().get(place) {
        Some(lexeme) => all.len() == count && is(lexeme, shown, line),
        None => false,
    }
}

/// Texts of one token, and what it is.
static TOKENS: [(&[u8], Shown); 33] = [
    (b"a", Name(b"a")),
    (b"arrays", Name(b"arrays")),
    (b"put_lines_2", Name(b"put_lines_2")),
    (b"array", Key(Reserved::Array)),
    (b"put_line", Key(Reserved::PutLine)),
    (b"within", Key(Reserved::Within)),
    (b"nil", Key(Reserved::Nil)),
    (b"0", Int(0)),
    (b"007", Int(7)),
    (b"9223372036854775807", Int(9223372036854775807)),
    (b"'a'", Char(b'a')),
    (b"'\"'", Char(b'"')),
    (b"'\\n'", Char(10)),
    (b"'\\t'", Char(9)),
    (b"'\\\\'", Char(92)),
    (b"'\\''", Char(39)),
    (b"\"\"", Str(b"")),
    (b"\"it's\"", Str(b"it's")),
    (b"\"a\\nb\\t\\\\\\'\\\"\"", Str(b"a\nb\t\\'\"")),
    (b"\"\\\\n\"", Str(b"\\n")),
    (b":=", Key(Reserved::Becomes)),
    (b":", Key(Reserved::Colon)),
    (b"~=", Key(Reserved::Differs)),
    (b"~", Key(Reserved::Tilde)),
    (b"<=", Key(Reserved::AtMost)),
    (b"<", Key(Reserved::Less)),
    (b">=", Key(Reserved::AtLeast)),
    (b">", Key(Reserved::More)),
    (b"//", Key(Reserved::Slashes)),
    (b"/", Key(Reserved::Slash)),
    (b"||", Key(Reserved::Bars)),
    (b"|", Key(Reserved::Bar)),
    (b"$", Key(Reserved::Dollar)),
];

#[test]
fn tells_what_each_token_is(rt: HostRuntime) {
    for &(text, shown) in &TOKENS {
        assert!(rt;
            has(&rt, rt.alloc(), text, 1, 0, shown, 1),
            "{}",
            text.escape_ascii()
        );
    }
}

#[test]
fn keeps_order_and_lines(rt: HostRuntime) {
    static TABLE: [(usize, Shown, u32); 6] = [
        (0, Name(b"p"), 1),
        (1, Key(Reserved::Equals), 1),
        (2, Key(Reserved::Proc), 3),
        (3, Key(Reserved::LParen), 3),
        (4, Int(1), 3),
        (5, Key(Reserved::RParen), 3),
    ];
    for &(place, shown, line) in &TABLE {
        let text = b"p = % a comment\n\nproc (1)";
        assert!(rt;
            has(&rt, rt.alloc(), text, 6, place, shown, line),
            "at {place}"
        );
    }
    no_tokens_are_two_lists();
}
