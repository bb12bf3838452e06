//! Expressions. What a name or an operator stands for is `Meant::Unknown` in a tree that reads.

ghost use Rattle.std.specs.Prelude.{◌≡◌, IfOk, None, Some};

use crate::shape::Shape;
use crate::text::Text;
use crate::tree::{Expr, FieldInit, Infix, Meant, Prefix};
use crate::value::Value;
use sqlite_items::{Boxed, Items};
use std::alloc::{AllocError, Global};

/// `nil`
pub fn nil(line: u32) -> Expr
    ensures { result ≡ Expr.Literal Value.Nil line }
{
    Expr::Literal(Value::Nil, line)
}

/// `true` or `false`
pub fn bool_literal(value: bool, line: u32) -> Expr
    ensures { result ≡ Expr.Literal (Value.Bool value) line }
{
    Expr::Literal(Value::Bool(value), line)
}

/// An integer literal, with its value.
pub fn int_literal(number: i64, line: u32) -> Expr
    ensures { result ≡ Expr.Literal (Value.Int number) line }
{
    Expr::Literal(Value::Int(number), line)
}

/// A char literal, with its code.
pub fn char_literal(code: u8, line: u32) -> Expr
    ensures { result ≡ Expr.Literal (Value.Char code) line }
{
    Expr::Literal(Value::Char(code), line)
}

/// A string literal, with its content.
pub fn string_literal(content: Text, line: u32) -> Expr
    ensures { result ≡ Expr.Literal (Value.Str content) line }
{
    Expr::Literal(Value::Str(content), line)
}

/// A variable, by its name.
pub fn name(name: Text, line: u32, meant: Meant) -> Expr
    ensures { result ≡ Expr.Name name line meant }
{
    Expr::Name(name, line, meant)
}

/// `left op right`
pub fn binary(
    alloc: Global,
    left: Expr,
    op: Infix,
    right: Expr,
    line: u32,
    meant: Meant,
) -> Result<Expr, AllocError>
    ensures { IfOk result (λ x. x ≡ Expr.Binary left op right line meant) }
{
    let left = Boxed::new(alloc, left);
    let right = Boxed::new(alloc, right)?;
    Ok(Expr::Binary(left?, op, right, line, meant))
}

/// `op operand`
pub fn unary(
    alloc: Global,
    op: Prefix,
    operand: Expr,
    line: u32,
    meant: Meant,
) -> Result<Expr, AllocError>
    ensures { IfOk result (λ x. x ≡ Expr.Unary op operand line meant) }
{
    let operand = Boxed::new(alloc, operand)?;
    Ok(Expr::Unary(op, operand, line, meant))
}

/// `name(args)`
pub fn call(name: Text, args: Items<Expr>, line: u32, meant: Meant) -> Expr
    ensures { result ≡ Expr.Call name args line meant }
{
    Expr::Call(name, args, line, meant)
}

/// `shape$name(args)`
pub fn operation(shape: Shape, name: Text, args: Items<Expr>, line: u32, meant: Meant) -> Expr
    ensures { result ≡ Expr.Op shape name args line meant }
{
    Expr::Op(shape, name, args, line, meant)
}

/// `shape${..}`
pub fn record_literal(shape: Shape, fields: Items<FieldInit>, line: u32, meant: Meant) -> Expr
    ensures { result ≡ Expr.Record shape fields line meant }
{
    Expr::Record(shape, fields, line, meant)
}

/// `name: value` of a record constructor.
pub fn field_init(name: Text, value: Expr) -> FieldInit
    ensures { result ≡ record { name = name; value = value } }
{
    FieldInit { name, value }
}

/// `shape$[items]`
pub fn array_literal(shape: Shape, items: Items<Expr>, line: u32, meant: Meant) -> Expr
    ensures { result ≡ Expr.Array shape items line meant }
{
    Expr::Array(shape, items, line, meant)
}

/// `up(operand)`
pub fn up(alloc: Global, operand: Expr, line: u32) -> Result<Expr, AllocError>
    ensures { IfOk result (λ x. x ≡ Expr.Up operand line) }
{
    let operand = Boxed::new(alloc, operand)?;
    Ok(Expr::Up(operand, line))
}

/// `down(operand)`
pub fn down(alloc: Global, operand: Expr, line: u32) -> Result<Expr, AllocError>
    ensures { IfOk result (λ x. x ≡ Expr.Down operand line) }
{
    let operand = Boxed::new(alloc, operand)?;
    Ok(Expr::Down(operand, line))
}

/// `now()`
pub fn now(line: u32) -> Expr
    ensures { result ≡ Expr.Now line }
{
    Expr::Now(line)
}

/// `owner.name`
pub fn field(
    alloc: Global,
    owner: Expr,
    name: Text,
    line: u32,
    meant: Meant,
) -> Result<Expr, AllocError>
    ensures { IfOk result (λ x. x ≡ Expr.Field owner name line meant) }
{
    let owner = Boxed::new(alloc, owner)?;
    Ok(Expr::Field(owner, name, line, meant))
}

/// `array[index]`
pub fn index(
    alloc: Global,
    array: Expr,
    index: Expr,
    line: u32,
    meant: Meant,
) -> Result<Expr, AllocError>
    ensures { IfOk result (λ x. x ≡ Expr.Index array index line meant) }
{
    let array = Boxed::new(alloc, array);
    let index = Boxed::new(alloc, index)?;
    Ok(Expr::Index(array?, index, line, meant))
}
