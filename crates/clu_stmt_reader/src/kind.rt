//! Which statement comes next.

ghost use Rattle.std.specs.Prelude.{◌≡◌, ◌∷◌, ℕ, List, drop};
ghost use Rattle.clu_grammar.specs.Grammar.{Tokens};
ghost use Rattle.clu_stmt_reader.specs.Kinds.{kind_of};

use clu_expr_reader::Cursor;
use clu_tree::{Key, Lexeme};

/// What a statement begins with.
#[derive(Clone, Copy)]
pub enum Kind {
    Declaration,
    /// A name and `:=`.
    Assignment,
    Remote,
    PutLine,
    Sleep,
    Fork,
    Return,
    Signal,
    If,
    While,
    For,
    Tagcase,
    Begin,
    Region,
    /// A call, or an assignment to a field or an element.
    Front,
}

#[tactic(auto, unfolding(crate::specs::Kinds::kind_of))]
fn kind_of_key(key: Key) -> Kind
    ensures { (n : ℕ) (r : Tokens) → result ≡ kind_of (Lexeme.Key key n ∷ r) }
{
    match key {
        Key::Once | Key::Maybe => Kind::Remote,
        Key::PutLine => Kind::PutLine,
        Key::Sleep => Kind::Sleep,
        Key::Fork => Kind::Fork,
        Key::Return => Kind::Return,
        Key::Signal => Kind::Signal,
        Key::If => Kind::If,
        Key::While => Kind::While,
        Key::For => Kind::For,
        Key::Tagcase => Kind::Tagcase,
        Key::Begin => Kind::Begin,
        Key::Region => Kind::Region,
        _ => Kind::Front,
    }
}

#[tactic(auto, unfolding(crate::specs::Kinds::kind_of))]
fn kind_of_name(cursor: &Cursor<'_>) -> Kind
    ensures { (x : List ℕ) (n : ℕ) (r : Tokens) → cursor.now ≡ Lexeme.Name x n ∷ r → result ≡ kind_of cursor.now }
{
    match cursor.second() {
        Some(Lexeme::Key(Key::Colon, _)) => Kind::Declaration,
        Some(Lexeme::Key(Key::Becomes, _)) => Kind::Assignment,
        _ => Kind::Front,
    }
}

/// What the next statement begins with.
#[tactic(auto, unfolding(crate::specs::Kinds::kind_of))]
pub fn next_kind(cursor: &Cursor<'_>) -> Kind
    ensures { result ≡ kind_of cursor.now }
{
    match cursor.peek() {
        Some(Lexeme::Name(_, _)) => kind_of_name(cursor),
        Some(Lexeme::Key(key, _)) => kind_of_key(*key),
        _ => Kind::Front,
    }
}
