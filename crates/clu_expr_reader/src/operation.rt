//! Names of operations.

ghost use Rattle.std.specs.Prelude.{◌≡◌, ◌∷◌, drop};
ghost use Rattle.clu_grammar.specs.Grammar.{line_of};
ghost use Rattle.clu_grammar.specs.ExprPlan as plan;
ghost use Rattle.clu_expr_reader.specs.Gives.{Gives};

use crate::cursor::Cursor;
use crate::fault::ReadFault;
use clu_tree::{Key, Lexeme, Text, word_of};
use std::alloc::Global;

/// Reads the name of an operation, which may be a reserved word, and the bracket that opens its arguments.
pub fn op_name(alloc: Global, cursor: &mut Cursor<'_>) -> Result<Text, ReadFault>
    ensures { Gives (λ x. x) result cursor.new (plan.op_at cursor.old) }
{
    match cursor.peek() {
        Some(Lexeme::Name(name, _)) => {
            if let Some(Lexeme::Key(Key::LParen, _)) = cursor.second() {
                let name = name.copy(alloc)?;
                cursor.skip_two();
                return Ok(name);
            }
            cursor.skip();
            Err(ReadFault::Syntax(cursor.line()))
        }
        Some(Lexeme::Key(key, _)) => op_word(alloc, cursor, *key),
        _ => Err(ReadFault::Syntax(cursor.line())),
    }
}

/// Reads a reserved word, which comes next, as the name of an operation, and the bracket that opens its arguments.
fn op_word(alloc: Global, cursor: &mut Cursor<'_>, key: Key) -> Result<Text, ReadFault>
    requires { cursor.old ≡ Lexeme.Key key (line_of cursor.old) ∷ drop 1 cursor.old }
    ensures { Gives (λ x. x) result cursor.new (plan.op_at cursor.old) }
{
    match word_of(key) {
        Some(word) => {
            if let Some(Lexeme::Key(Key::LParen, _)) = cursor.second() {
                let name = Text::from_slice(alloc, word)?;
                cursor.skip_two();
                return Ok(name);
            }
            cursor.skip();
            Err(ReadFault::Syntax(cursor.line()))
        }
        None => Err(ReadFault::Syntax(cursor.line())),
    }
}
