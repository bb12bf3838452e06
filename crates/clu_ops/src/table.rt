//! An operation on its operands.

ghost use Rattle.std.specs.Prelude.{◌≡◌, ◌∷◌, [], IfOk, Some};
ghost use Rattle.clu_ops.specs.Ops.{end_of, Takes};

use crate::ends::truth;
use crate::fault::Memory;
use crate::ints::{on_char, on_chars, on_int, on_ints};
use crate::op_end::OpEnd;
use crate::texts::{
    on_string, on_string_and_char, on_string_and_int, on_string_and_ints, on_strings,
};
use clu_tree::{Op, Value};
use std::alloc::Global;

/// How an operation on ints, bools, chars, strings or nil ends on operands of its number and kinds.
///
/// Strings are bytes, compared byte by byte, and positions in them count from 1. The quotient and the remainder of x
/// and y are those of `x = q*y + r` with `0 <= r < |y|`. The cost is linear in the operands.
///
/// Fails only for want of memory. What the program did wrong is an exception: `overflow`, `zero_divide`, `bad_format`,
/// `illegal_char`, `bounds` and `negative_size` without a value, and `failure("string limit")` for a string of more
/// than 1,024 bytes.
pub fn apply(alloc: Global, op: Op, args: &[Value]) -> Result<OpEnd, Memory>
    requires { Takes op args.now }
    ensures { IfOk result (λ e. end_of op args.now ≡ Some e) }
{
    match args {
        [a] => on_one(alloc, op, a),
        [a, b] => on_two(alloc, op, a, b),
        [a, b, c] => on_three(alloc, op, a, b, c),
        _ => unreachable!(),
    }
}

fn on_one(alloc: Global, op: Op, a: &Value) -> Result<OpEnd, Memory>
    requires { Takes op (a.now ∷ []) }
    ensures { IfOk result (λ e. end_of op (a.now ∷ []) ≡ Some e) }
{
    match a {
        Value::Bool(a) => Ok(on_bool(op, *a)),
        Value::Int(a) => on_int(alloc, op, *a),
        Value::Char(a) => Ok(on_char(op, *a)),
        Value::Str(a) => on_string(alloc, op, a.as_slice()),
        Value::Nil | Value::Ref(_) => unreachable!(),
    }
}

fn on_two(alloc: Global, op: Op, a: &Value, b: &Value) -> Result<OpEnd, Memory>
    requires { Takes op (a.now ∷ b.now ∷ []) }
    ensures { IfOk result (λ e. end_of op (a.now ∷ b.now ∷ []) ≡ Some e) }
{
    match (a, b) {
        (Value::Nil, Value::Nil) => Ok(on_nils(op)),
        (Value::Bool(a), Value::Bool(b)) => Ok(on_bools(op, *a, *b)),
        (Value::Int(a), Value::Int(b)) => on_ints(alloc, op, *a, *b),
        (Value::Char(a), Value::Char(b)) => Ok(on_chars(op, *a, *b)),
        (Value::Str(a), Value::Str(b)) => on_strings(alloc, op, a.as_slice(), b.as_slice()),
        (Value::Str(a), Value::Char(b)) => on_string_and_char(alloc, op, a.as_slice(), *b),
        (Value::Str(a), Value::Int(b)) => on_string_and_int(alloc, op, a.as_slice(), *b),
        _ => unreachable!(),
    }
}

fn on_three(alloc: Global, op: Op, a: &Value, b: &Value, c: &Value) -> Result<OpEnd, Memory>
    requires { Takes op (a.now ∷ b.now ∷ c.now ∷ []) }
    ensures { IfOk result (λ e. end_of op (a.now ∷ b.now ∷ c.now ∷ []) ≡ Some e) }
{
    match (a, b, c) {
        (Value::Str(a), Value::Int(b), Value::Int(c)) => on_string_and_ints(
            alloc,
            op,
            a.as_slice(),
            *b,
            *c,
        ),
        _ => unreachable!(),
    }
}

fn on_bool(op: Op, a: bool) -> OpEnd
    requires { Takes op (Value.Bool a ∷ []) }
    ensures { end_of op (Value.Bool a ∷ []) ≡ Some result }
{
    match op {
        Op::BoolNot => truth(!a),
        _ => unreachable!(),
    }
}

fn on_bools(op: Op, a: bool, b: bool) -> OpEnd
    requires { Takes op (Value.Bool a ∷ Value.Bool b ∷ []) }
    ensures { end_of op (Value.Bool a ∷ Value.Bool b ∷ []) ≡ Some result }
{
    match op {
        Op::BoolAnd => truth(a && b),
        Op::BoolOr => truth(a || b),
        Op::BoolEqual => truth(a == b),
        _ => unreachable!(),
    }
}

fn on_nils(op: Op) -> OpEnd
    requires { Takes op (Value.Nil ∷ Value.Nil ∷ []) }
    ensures { end_of op (Value.Nil ∷ Value.Nil ∷ []) ≡ Some result }
{
    match op {
        Op::NullEqual => truth(true),
        _ => unreachable!(),
    }
}
