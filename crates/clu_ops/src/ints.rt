//! The operations on ints and chars.

ghost use Rattle.std.specs.Prelude.{◌≡◌, ◌∷◌, [], ℤ, Some, IfOk, FitsSigned};
ghost use Rattle.std.specs.Int.{w64};
ghost use Rattle.std.specs.Option.{SomeIff};
ghost use Rattle.clu_ops.specs.Ints.{ranged, quotient as quotient_end, remainder as remainder_end, char_of as char_of_end};
ghost use Rattle.clu_ops.specs.Ops.{end_of, Takes};

use crate::ends::{character, number, signal, text, truth};
use crate::fault::Memory;
use crate::op_end::OpEnd;
use clu_tree::{Op, Value};
use itoa::Buffer;
use std::alloc::Global;

/// The int, or `overflow` where there is none.
pub(crate) fn int_or_overflow(alloc: Global, int: Option<i64>) -> Result<OpEnd, Memory>
    ensures { IfOk result (λ e. (z : ℤ) → SomeIff int (FitsSigned w64 z) z → e ≡ ranged z) }
{
    match int {
        Some(int) => Ok(number(int)),
        None => signal(alloc, b"overflow"),
    }
}

fn quotient(alloc: Global, x: i64, y: i64) -> Result<OpEnd, Memory>
    ensures { IfOk result (λ e. e ≡ quotient_end x y) }
{
    if y == 0 {
        return signal(alloc, b"zero_divide");
    }
    int_or_overflow(alloc, x.checked_div_euclid(y))
}

/// The remainder overflows where the quotient does.
fn remainder(alloc: Global, x: i64, y: i64) -> Result<OpEnd, Memory>
    ensures { IfOk result (λ e. e ≡ remainder_end x y) }
{
    if y == 0 {
        return signal(alloc, b"zero_divide");
    }
    match x.checked_rem_euclid(y) {
        Some(remainder) => Ok(number(remainder)),
        None => signal(alloc, b"overflow"),
    }
}

fn unparse(alloc: Global, int: i64) -> Result<OpEnd, Memory>
    ensures { IfOk result (λ e. end_of Op.IntUnparse (Value.Int int ∷ []) ≡ Some e) }
{
    let mut buffer = Buffer::new();
    text(alloc, buffer.format(int).as_bytes())
}

fn char_of(alloc: Global, code: i64) -> Result<OpEnd, Memory>
    ensures { IfOk result (λ e. e ≡ char_of_end code) }
{
    match u8::try_from(code) {
        Ok(code) => Ok(character(code)),
        Err(_) => signal(alloc, b"illegal_char"),
    }
}

pub(crate) fn on_int(alloc: Global, op: Op, a: i64) -> Result<OpEnd, Memory>
    requires { Takes op (Value.Int a ∷ []) }
    ensures { IfOk result (λ e. end_of op (Value.Int a ∷ []) ≡ Some e) }
{
    match op {
        Op::IntMinus => int_or_overflow(alloc, a.checked_neg()),
        Op::IntUnparse => unparse(alloc, a),
        Op::CharI2c => char_of(alloc, a),
        _ => unreachable!(),
    }
}

pub(crate) fn on_ints(alloc: Global, op: Op, a: i64, b: i64) -> Result<OpEnd, Memory>
    requires { Takes op (Value.Int a ∷ Value.Int b ∷ []) }
    ensures { IfOk result (λ e. end_of op (Value.Int a ∷ Value.Int b ∷ []) ≡ Some e) }
{
    let order = a.cmp(&b);
    match op {
        Op::IntAdd => int_or_overflow(alloc, a.checked_add(b)),
        Op::IntSub => int_or_overflow(alloc, a.checked_sub(b)),
        Op::IntMul => int_or_overflow(alloc, a.checked_mul(b)),
        Op::IntDiv => quotient(alloc, a, b),
        Op::IntMod => remainder(alloc, a, b),
        Op::IntLt => Ok(truth(order.is_lt())),
        Op::IntLe => Ok(truth(order.is_le())),
        Op::IntEqual => Ok(truth(order.is_eq())),
        Op::IntGe => Ok(truth(order.is_ge())),
        Op::IntGt => Ok(truth(order.is_gt())),
        _ => unreachable!(),
    }
}

pub(crate) fn on_char(op: Op, a: u8) -> OpEnd
    requires { Takes op (Value.Char a ∷ []) }
    ensures { end_of op (Value.Char a ∷ []) ≡ Some result }
{
    match op {
        Op::CharC2i => number(a as i64),
        _ => unreachable!(),
    }
}

pub(crate) fn on_chars(op: Op, a: u8, b: u8) -> OpEnd
    requires { Takes op (Value.Char a ∷ Value.Char b ∷ []) }
    ensures { end_of op (Value.Char a ∷ Value.Char b ∷ []) ≡ Some result }
{
    let order = a.cmp(&b);
    match op {
        Op::CharLt => truth(order.is_lt()),
        Op::CharLe => truth(order.is_le()),
        Op::CharEqual => truth(order.is_eq()),
        Op::CharGe => truth(order.is_ge()),
        Op::CharGt => truth(order.is_gt()),
        _ => unreachable!(),
    }
}
