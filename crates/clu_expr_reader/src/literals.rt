//! Literals, without a sign.

ghost use Rattle.std.specs.Prelude.{◌≡◌, is_some};
ghost use Rattle.clu_grammar.specs.ExprPlan as plan;
ghost use Rattle.clu_expr_reader.specs.Gives.{Gives};

use crate::cursor::Cursor;
use crate::fault::ReadFault;
use clu_tree::{Key, Lexeme, Value};
use std::alloc::Global;

/// Whether a literal comes next.
pub fn at_literal(cursor: &Cursor<'_>) -> bool
    ensures { result ≡ is_some (plan.literal_at cursor.now) }
{
    match cursor.peek() {
        Some(Lexeme::Key(Key::Nil | Key::True | Key::False, _)) => true,
        Some(Lexeme::Int(_, _)) => true,
        Some(Lexeme::Char(_, _)) => true,
        Some(Lexeme::Str(_, _)) => true,
        _ => false,
    }
}

/// Reads a literal without a sign.
pub fn literal(alloc: Global, cursor: &mut Cursor<'_>) -> Result<Value, ReadFault>
    ensures { Gives (λ x. x) result cursor.new (plan.literal_at cursor.old) }
{
    let value = match cursor.peek() {
        Some(Lexeme::Key(Key::Nil, _)) => Value::Nil,
        Some(Lexeme::Key(Key::True, _)) => Value::Bool(true),
        Some(Lexeme::Key(Key::False, _)) => Value::Bool(false),
        Some(Lexeme::Int(number, _)) => Value::Int(*number),
        Some(Lexeme::Char(number, _)) => Value::Char(*number),
        Some(Lexeme::Str(content, _)) => Value::Str(content.copy(alloc)?),
        _ => return Err(ReadFault::Syntax(cursor.line())),
    };
    cursor.skip();
    Ok(value)
}
