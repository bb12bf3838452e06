//! Keys by their spellings.

ghost use Rattle.std.specs.Prelude.{◌≡◌};
ghost use Rattle.clu_tree.specs.Lexical as lexical;
ghost use Rattle.clu_lexeme.specs.Table.{is_spelled};
ghost use Rattle.clu_lexeme.specs.Table as table;

use clu_tree::{Key, symbol_of, word_of};

/// The keys of the reserved words, in the order of the alphabet.
const RESERVED: [Key; 55] = [
    Key::Array,
    Key::At,
    Key::Begin,
    Key::Bool,
    Key::Cand,
    Key::Char,
    Key::Cluster,
    Key::Cor,
    Key::Cvt,
    Key::Do,
    Key::Down,
    Key::Else,
    Key::Elseif,
    Key::End,
    Key::Except,
    Key::Export,
    Key::False,
    Key::For,
    Key::Fork,
    Key::If,
    Key::In,
    Key::Int,
    Key::Is,
    Key::Lock,
    Key::Maybe,
    Key::Nil,
    Key::Node,
    Key::Nodevar,
    Key::Now,
    Key::Null,
    Key::Once,
    Key::Oneof,
    Key::Others,
    Key::Proc,
    Key::PutLine,
    Key::Record,
    Key::Region,
    Key::Rep,
    Key::Resignal,
    Key::Return,
    Key::Returns,
    Key::Semaphore,
    Key::Signal,
    Key::Signals,
    Key::Sleep,
    Key::Start,
    Key::String,
    Key::Tag,
    Key::Tagcase,
    Key::Then,
    Key::True,
    Key::Up,
    Key::When,
    Key::While,
    Key::Within,
];

/// The keys of the symbols.
const SYMBOLS: [Key; 26] = [
    Key::Becomes,
    Key::Dollar,
    Key::LParen,
    Key::RParen,
    Key::LBracket,
    Key::RBracket,
    Key::LBrace,
    Key::RBrace,
    Key::Comma,
    Key::Dot,
    Key::Colon,
    Key::Equals,
    Key::Differs,
    Key::Less,
    Key::AtMost,
    Key::More,
    Key::AtLeast,
    Key::Plus,
    Key::Minus,
    Key::Star,
    Key::Slash,
    Key::Slashes,
    Key::Bars,
    Key::Ampersand,
    Key::Bar,
    Key::Tilde,
];

/// Whether the reserved word is spelled so.
fn is_word(key: Key, spelling: &[u8]) -> bool
    ensures { result ≡ is_spelled (lexical.word_of key) spelling.now }
{
    match word_of(key) {
        Some(word) => spelling == word,
        None => false,
    }
}

/// Whether the symbol is spelled so.
fn is_symbol(key: Key, spelling: &[u8]) -> bool
    ensures { result ≡ is_spelled (lexical.symbol_of key) spelling.now }
{
    match symbol_of(key) {
        Some(symbol) => spelling == symbol,
        None => false,
    }
}

/// The first of the keys whose reserved word is spelled so.
fn first_word(keys: &[Key], spelling: &[u8]) -> Option<Key>
    ensures { result ≡ table.first_key lexical.word_of keys.now spelling.now }
{
    for key in keys {
        if is_word(*key, spelling) {
            return Some(*key);
        }
    }
    None
}

/// The first of the keys whose symbol is spelled so.
fn first_symbol(keys: &[Key], spelling: &[u8]) -> Option<Key>
    ensures { result ≡ table.first_key lexical.symbol_of keys.now spelling.now }
{
    for key in keys {
        if is_symbol(*key, spelling) {
            return Some(*key);
        }
    }
    None
}

/// The key of a reserved word.
#[tactic(auto, unfolding(crate::specs::Table::word_key))]
pub fn word_key(spelling: &[u8]) -> Option<Key>
    ensures { result ≡ table.word_key spelling.now }
{
    first_word(&RESERVED, spelling)
}

/// The key of a symbol.
#[tactic(auto, unfolding(crate::specs::Table::symbol_key))]
pub fn symbol_key(spelling: &[u8]) -> Option<Key>
    ensures { result ≡ table.symbol_key spelling.now }
{
    first_symbol(&SYMBOLS, spelling)
}
