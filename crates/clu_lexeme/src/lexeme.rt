//! Tokens as the grammar sees them.

ghost use Rattle.std.specs.Prelude.{◌≡◌, ◌<◌, ◌^◌, IfOk};
ghost use Rattle.clu_tree.specs.declared.lexeme.Lexeme.{Lexeme};
ghost use Rattle.clu_text.specs.Spelling.{IsToken, int_value};
ghost use Rattle.clu_text.specs.declared.token.TokenKind.TheVariants as kinds;
ghost use Rattle.clu_text.specs.Tokens.{HasTokens};
ghost use Rattle.clu_lexeme.specs.Lexemes.{AreLexemes, Denotes};

use crate::content::{content, number};
use crate::table::{symbol_key, word_key};
use clu_text::{Token, TokenKind, tokens_are_spelled};
use clu_tree::{Lexeme, Text};
use std::alloc::{AllocError, Global};

/// Memory ran out.
pub type Memory = AllocError;

/// A reserved word, or a name.
fn word(alloc: Global, spelling: &[u8], line: u32) -> Result<Lexeme, AllocError>
    ensures { IfOk result (λ x. Denotes line kinds.Word spelling.now x) }
{
    match word_key(spelling) {
        Some(key) => Ok(Lexeme::Key(key, line)),
        None => Ok(Lexeme::Name(Text::from_slice(alloc, spelling)?, line)),
    }
}

/// A symbol.
fn symbol(spelling: &[u8], line: u32) -> Lexeme
    requires { IsToken kinds.Symbol spelling.now }
    ensures { Denotes line kinds.Symbol spelling.now result }
{
    match symbol_key(spelling) {
        Some(key) => Lexeme::Key(key, line),
        None => unreachable!(),
    }
}

/// A char.
fn character(alloc: Global, spelling: &[u8], line: u32) -> Result<Lexeme, AllocError>
    requires { IsToken kinds.Char spelling.now }
    ensures { IfOk result (λ x. Denotes line kinds.Char spelling.now x) }
{
    let parts = content(alloc, &spelling[1..], b'\'')?;
    Ok(Lexeme::Char(parts.as_slice()[0], line))
}

/// A string.
fn string(alloc: Global, spelling: &[u8], line: u32) -> Result<Lexeme, AllocError>
    requires { IsToken kinds.Str spelling.now }
    ensures { IfOk result (λ x. Denotes line kinds.Str spelling.now x) }
{
    let parts = content(alloc, &spelling[1..], b'"')?;
    Ok(Lexeme::Str(Text::from_vec(parts), line))
}

/// What a token of this kind and spelling is.
fn lexeme(alloc: Global, kind: TokenKind, spelling: &[u8], line: u32) -> Result<Lexeme, AllocError>
    requires spelled { IsToken kind spelling.now }
    requires in_range { kind ≡ kinds.Int → int_value spelling.now < 2 ^ 63 }
    ensures { IfOk result (λ x. Denotes line kind spelling.now x) }
{
    match kind {
        TokenKind::Word => word(alloc, spelling, line),
        TokenKind::Int => Ok(Lexeme::Int(number(spelling), line)),
        TokenKind::Char => character(alloc, spelling, line),
        TokenKind::Str => string(alloc, spelling, line),
        TokenKind::Symbol => Ok(symbol(spelling, line)),
    }
}

/// What the tokens of a text are to its grammar, one for each, in order.
pub fn lexemes(alloc: Global, text: &[u8], tokens: &[Token]) -> Result<Vec<Lexeme>, Memory>
    requires { HasTokens text.now tokens.now }
    ensures { IfOk result (λ found. AreLexemes text.now tokens.now found.items) }
{
    tokens_are_spelled();
    let mut found = Vec::new(alloc);
    for token in tokens {
        let spelling = &text[token.from as usize..token.to as usize];
        let next = lexeme(alloc, token.kind, spelling, token.line)?;
        found.push(next)?;
    }
    Ok(found)
}
