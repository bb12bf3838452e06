//! The tokens of texts.

use clu_text::TextFault::{BadByte, Wide};
use clu_text::TokenKind::{Char, Int, Str, Symbol, Word};
use clu_text::{TextFault, TokenKind, tokens};
use std::alloc::Global;
use std::process::Abort;

/// The longest text.
const LIMIT: usize = 1_048_576;

/// A token: its kind, where it begins and ends, and its line.
type Place = (TokenKind, u32, u32, u32);

/// Whether these are the text's tokens.
fn has_tokens(rt: &impl Abort, alloc: Global, text: &[u8], places: &[Place]) -> bool {
    assert!(rt; text.len() <= LIMIT);
    let found = tokens(alloc, text).expect(rt, "tokens");
    let mut same = found.len() == places.len();
    for (token, place) in found.iter().zip(places) {
        same = same && (token.kind, token.from, token.to, token.line) == *place;
    }
    same
}

/// The kind and the length of the first token, and how many there are.
fn first(
    rt: &impl Abort,
    alloc: Global,
    text: &[u8],
) -> Result<(TokenKind, u32, usize), TextFault> {
    assert!(rt; text.len() <= LIMIT);
    match tokens(alloc, text) {
        Ok(found) => match found.as_slice() {
            [token, ..] => Ok((token.kind, token.to.saturating_sub(token.from), found.len())),
            [] => Ok((Symbol, 0, 0)),
        },
        Err(fault) => Err(fault),
    }
}

/// How many tokens a text has that is a byte so many times.
fn count(rt: &impl Abort, alloc: Global, byte: u8, times: usize) -> Result<usize, TextFault> {
    assert!(rt; times <= LIMIT);
    let text = vec![in alloc; byte; times].expect(rt, "memory");
    match tokens(alloc, text.as_slice()) {
        Ok(found) => Ok(found.len()),
        Err(fault) => Err(fault),
    }
}

/// A piece so many times, between two quotes.
fn string_of(rt: &impl Abort, alloc: Global, piece: &[u8], times: usize) -> Vec<u8> {
    let mut text = Vec::from_slice(alloc, b"\"").expect(rt, "memory");
    for _ in 0..times {
        text.extend_from_slice(piece).expect(rt, "memory");
    }
    text.push(b'"').expect(rt, "memory");
    text
}

#[test]
fn tokens_have_kinds_places_and_lines(rt: HostRuntime) {
    static TABLE: [(&[u8], &[Place]); 15] = [
        (b"", &[]),
        (b" \t\r\n", &[]),
        (
            b"x := 1",
            &[(Word, 0, 1, 1), (Symbol, 2, 4, 1), (Int, 5, 6, 1)],
        ),
        (b"put_line x_1", &[(Word, 0, 8, 1), (Word, 9, 12, 1)]),
        (
            b"if\nif\r\n\n if",
            &[(Word, 0, 2, 1), (Word, 3, 5, 2), (Word, 9, 11, 4)],
        ),
        (
            b"1a a1",
            &[(Int, 0, 1, 1), (Word, 1, 2, 1), (Word, 3, 5, 1)],
        ),
        (b"007", &[(Int, 0, 3, 1)]),
        (b"'a'\"bc\"", &[(Char, 0, 3, 1), (Str, 3, 7, 1)]),
        (b"\"\"\"'\"", &[(Str, 0, 2, 1), (Str, 2, 5, 1)]),
        (b"% all\n%\n9", &[(Int, 8, 9, 3)]),
        (b"a%b\nc", &[(Word, 0, 1, 1), (Word, 4, 5, 2)]),
        (b"a % b", &[(Word, 0, 1, 1)]),
        (b"%", &[]),
        (b"\"%\" %\"", &[(Str, 0, 3, 1)]),
        (
            b"a.b[1]",
            &[
                (Word, 0, 1, 1),
                (Symbol, 1, 2, 1),
                (Word, 2, 3, 1),
                (Symbol, 3, 4, 1),
                (Int, 4, 5, 1),
                (Symbol, 5, 6, 1),
            ],
        ),
    ];
    for &(text, places) in &TABLE {
        assert!(rt; has_tokens(&rt, rt.alloc(), text, places), "in {text:?}");
    }
}

#[test]
fn each_symbol_is_one_token(rt: HostRuntime) {
    static TABLE: [(&[u8], u32); 26] = [
        (b":=", 2),
        (b"$", 1),
        (b"(", 1),
        (b")", 1),
        (b"[", 1),
        (b"]", 1),
        (b"{", 1),
        (b"}", 1),
        (b",", 1),
        (b".", 1),
        (b":", 1),
        (b"=", 1),
        (b"~=", 2),
        (b"<", 1),
        (b"<=", 2),
        (b">", 1),
        (b">=", 2),
        (b"+", 1),
        (b"-", 1),
        (b"*", 1),
        (b"/", 1),
        (b"//", 2),
        (b"||", 2),
        (b"&", 1),
        (b"|", 1),
        (b"~", 1),
    ];
    for &(text, len) in &TABLE {
        assert!(rt;
            first(&rt, rt.alloc(), text) == Ok((Symbol, len, 1)),
            "in {text:?}"
        );
    }
}

#[test]
fn the_longest_token_is_taken(rt: HostRuntime) {
    static TABLE: [(&[u8], TokenKind, u32, usize); 13] = [
        (b":==", Symbol, 2, 2),
        (b"~==", Symbol, 2, 2),
        (b"<==", Symbol, 2, 2),
        (b">>=", Symbol, 1, 2),
        (b"///", Symbol, 2, 2),
        (b"||||", Symbol, 2, 2),
        (b"&&", Symbol, 1, 2),
        (b"=<", Symbol, 1, 2),
        (b": =", Symbol, 1, 2),
        (b"ends1_=", Word, 6, 2),
        (b"10:", Int, 2, 2),
        (b"\"a\"\"b\"", Str, 3, 2),
        (b"'a''b'", Char, 3, 2),
    ];
    for &(text, kind, len, tokens) in &TABLE {
        assert!(rt;
            first(&rt, rt.alloc(), text) == Ok((kind, len, tokens)),
            "in {text:?}"
        );
    }
}

#[test]
fn what_stands_at_the_bounds_is_taken(rt: HostRuntime) {
    static TABLE: [(&[u8], TokenKind, u32); 11] = [
        (b"9223372036854775807", Int, 19),
        (b"0009223372036854775807", Int, 22),
        (b"' '", Char, 3),
        (b"'~'", Char, 3),
        (b"'\"'", Char, 3),
        (b"'\\''", Char, 4),
        (b"'\\\"'", Char, 4),
        (b"'\\\\'", Char, 4),
        (b"'\\t'", Char, 4),
        (b"\"\\n\\t\\\\\\'\\\"'\"", Str, 13),
        (b"\"%not a comment\"", Str, 16),
    ];
    for &(text, kind, len) in &TABLE {
        assert!(rt;
            first(&rt, rt.alloc(), text) == Ok((kind, len, 1)),
            "in {text:?}"
        );
    }
}

#[test]
fn words_have_64_bytes_at_most(rt: HostRuntime) {
    let word = [b'w'; 65];
    let zeros = [b'0'; 65];
    let table: [(&[u8], Result<(TokenKind, u32, usize), TextFault>); 3] = [
        (&word[1..], Ok((Word, 64, 1))),
        (&word, Err(BadByte(0))),
        (&zeros, Ok((Int, 65, 1))),
    ];
    for (text, expected) in table {
        assert!(rt; first(&rt, rt.alloc(), text) == expected, "in {text:?}");
    }
}

#[test]
fn strings_have_1024_parts_at_most(rt: HostRuntime) {
    static TABLE: [(&[u8], usize, Result<(TokenKind, u32, usize), TextFault>); 5] = [
        (b"s", 1024, Ok((Str, 1026, 1))),
        (b"s", 1025, Err(BadByte(0))),
        (b"\\n", 1024, Ok((Str, 2050, 1))),
        (b"\\\"", 1025, Err(BadByte(0))),
        (b"", 7, Ok((Str, 2, 1))),
    ];
    for &(piece, times, expected) in &TABLE {
        let text = string_of(&rt, rt.alloc(), piece, times);
        assert!(rt;
            first(&rt, rt.alloc(), text.as_slice()) == expected,
            "{times} of {piece:?}"
        );
    }
}

#[test]
fn faults_are_at_the_first_place(rt: HostRuntime) {
    static TABLE: [(&[u8], TextFault); 25] = [
        (b"#", BadByte(0)),
        (b"9223372036854775808", Wide(0)),
        (b"x 09223372036854775808", Wide(2)),
        (b"99999999999999999999999999999999999", Wide(0)),
        (b"9223372036854775808 #", Wide(0)),
        (b"# 9223372036854775808", BadByte(0)),
        (b"1 9223372036854775808 9223372036854775808", Wide(2)),
        (b"a ? #", BadByte(2)),
        (b"X", BadByte(0)),
        (b"aB", BadByte(1)),
        (b"_a", BadByte(0)),
        (b"1_", BadByte(1)),
        (b"''", BadByte(0)),
        (b"'''", BadByte(0)),
        (b"'ab'", BadByte(0)),
        (b"'\\x'", BadByte(0)),
        (b"'\\'", BadByte(0)),
        (b"'\n'", BadByte(0)),
        (b"\"a", BadByte(0)),
        (b"\"a\\\"", BadByte(0)),
        (b"\"a\nb\"", BadByte(0)),
        (b"\"\t\"", BadByte(0)),
        (b"\"\x7f\"", BadByte(0)),
        (b"\x00", BadByte(0)),
        (b"a \xe4", BadByte(2)),
    ];
    for &(text, expected) in &TABLE {
        assert!(rt;
            first(&rt, rt.alloc(), text) == Err(expected),
            "in {text:?}"
        );
    }
}

#[test]
fn texts_of_1_mib_are_read_once(rt: HostRuntime) {
    static TABLE: [(u8, Result<usize, TextFault>); 8] = [
        (b'(', Ok(LIMIT)),
        (b'"', Ok(LIMIT / 2)),
        (b'\'', Err(BadByte(0))),
        (b'0', Ok(1)),
        (b'9', Err(Wide(0))),
        (b'%', Ok(0)),
        (b'\n', Ok(0)),
        (b'a', Err(BadByte(0))),
    ];
    for &(byte, expected) in &TABLE {
        assert!(rt;
            count(&rt, rt.alloc(), byte, LIMIT) == expected,
            "of {byte}"
        );
    }
}
