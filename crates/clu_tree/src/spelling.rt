//! How reserved words and symbols are spelled.

ghost use Rattle.std.specs.Prelude.{◌≡◌};
ghost use Rattle.std.specs.Option.{option_copied};
ghost use Rattle.clu_tree.specs.Lexical as lexical;

use crate::lexeme::Key;

/// The spelling of a reserved word. A symbol has none.
pub fn word_of(key: Key) -> Option<&'static [u8]>
    ensures { option_copied result ≡ lexical.word_of key }
{
    match key {
        Key::Array => Some(b"array"),
        Key::At => Some(b"at"),
        Key::Begin => Some(b"begin"),
        Key::Bool => Some(b"bool"),
        Key::Cand => Some(b"cand"),
        Key::Char => Some(b"char"),
        Key::Cluster => Some(b"cluster"),
        Key::Cor => Some(b"cor"),
        Key::Cvt => Some(b"cvt"),
        Key::Do => Some(b"do"),
        Key::Down => Some(b"down"),
        Key::Else => Some(b"else"),
        Key::Elseif => Some(b"elseif"),
        Key::End => Some(b"end"),
        Key::Except => Some(b"except"),
        Key::Export => Some(b"export"),
        Key::False => Some(b"false"),
        Key::For => Some(b"for"),
        Key::Fork => Some(b"fork"),
        Key::If => Some(b"if"),
        Key::In => Some(b"in"),
        Key::Int => Some(b"int"),
        Key::Is => Some(b"is"),
        Key::Lock => Some(b"lock"),
        Key::Maybe => Some(b"maybe"),
        Key::Nil => Some(b"nil"),
        Key::Node => Some(b"node"),
        Key::Nodevar => Some(b"nodevar"),
        Key::Now => Some(b"now"),
        Key::Null => Some(b"null"),
        Key::Once => Some(b"once"),
        Key::Oneof => Some(b"oneof"),
        Key::Others => Some(b"others"),
        Key::Proc => Some(b"proc"),
        Key::PutLine => Some(b"put_line"),
        Key::Record => Some(b"record"),
        Key::Region => Some(b"region"),
        Key::Rep => Some(b"rep"),
        Key::Resignal => Some(b"resignal"),
        Key::Return => Some(b"return"),
        Key::Returns => Some(b"returns"),
        Key::Semaphore => Some(b"semaphore"),
        Key::Signal => Some(b"signal"),
        Key::Signals => Some(b"signals"),
        Key::Sleep => Some(b"sleep"),
        Key::Start => Some(b"start"),
        Key::String => Some(b"string"),
        Key::Tag => Some(b"tag"),
        Key::Tagcase => Some(b"tagcase"),
        Key::Then => Some(b"then"),
        Key::True => Some(b"true"),
        Key::Up => Some(b"up"),
        Key::When => Some(b"when"),
        Key::While => Some(b"while"),
        Key::Within => Some(b"within"),
        _ => None,
    }
}

/// The spelling of a symbol. A reserved word has none.
pub fn symbol_of(key: Key) -> Option<&'static [u8]>
    ensures { option_copied result ≡ lexical.symbol_of key }
{
    match key {
        Key::Becomes => Some(b":="),
        Key::Dollar => Some(b"$"),
        Key::LParen => Some(b"("),
        Key::RParen => Some(b")"),
        Key::LBracket => Some(b"["),
        Key::RBracket => Some(b"]"),
        Key::LBrace => Some(b"{"),
        Key::RBrace => Some(b"}"),
        Key::Comma => Some(b","),
        Key::Dot => Some(b"."),
        Key::Colon => Some(b":"),
        Key::Equals => Some(b"="),
        Key::Differs => Some(b"~="),
        Key::Less => Some(b"<"),
        Key::AtMost => Some(b"<="),
        Key::More => Some(b">"),
        Key::AtLeast => Some(b">="),
        Key::Plus => Some(b"+"),
        Key::Minus => Some(b"-"),
        Key::Star => Some(b"*"),
        Key::Slash => Some(b"/"),
        Key::Slashes => Some(b"//"),
        Key::Bars => Some(b"||"),
        Key::Ampersand => Some(b"&"),
        Key::Bar => Some(b"|"),
        Key::Tilde => Some(b"~"),
        _ => None,
    }
}
