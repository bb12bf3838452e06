//! The operations on strings. Positions count from 1.

ghost use Rattle.std.specs.Prelude.{◌≡◌, ◌∷◌, ◌++◌, [], Some, IfOk};
ghost use Rattle.clu_ops.specs.Texts.{limited, fetched, part, char_or_bounds};
ghost use Rattle.clu_ops.specs.Ops.{end_of, Takes};

use crate::ends::{character, failure, number, signal, text, truth};
use crate::fault::Memory;
use crate::op_end::OpEnd;
use crate::parsing::parse;
use clu_tree::{Op, Text, Value};
use std::alloc::Global;

/// The most bytes of a string.
const LONGEST: usize = 1024;

fn concat(alloc: Global, first: &[u8], second: &[u8]) -> Result<OpEnd, Memory>
    ensures { IfOk result (λ e. e ≡ limited (first.now ++ second.now)) }
{
    if first.len() + second.len() > LONGEST {
        return failure(alloc, b"string limit");
    }
    let mut both = Vec::from_slice(alloc, first)?;
    both.extend_from_slice(second)?;
    Ok(OpEnd::Value(Value::Str(Text::from_vec(both))))
}

fn fetch(alloc: Global, string: &[u8], at: i64) -> Result<OpEnd, Memory>
    ensures { IfOk result (λ e. e ≡ fetched string.now at) }
{
    if at < 1 {
        return signal(alloc, b"bounds");
    }
    match string.get((at - 1) as usize) {
        Some(code) => Ok(character(*code)),
        None => signal(alloc, b"bounds"),
    }
}

/// Of the bytes from a position on, which may be the end, the first so many.
fn substr(alloc: Global, string: &[u8], at: i64, count: i64) -> Result<OpEnd, Memory>
    ensures { IfOk result (λ e. e ≡ part string.now at count) }
{
    if count < 0 {
        return signal(alloc, b"negative_size");
    }
    if at < 1 || (at - 1) as usize > string.len() {
        return signal(alloc, b"bounds");
    }
    let rest = &string[(at - 1) as usize..];
    let taken = rest.len().min(count as usize);
    text(alloc, &rest[..taken])
}

pub(crate) fn on_string(alloc: Global, op: Op, a: &[u8]) -> Result<OpEnd, Memory>
    requires { Takes op (Value.Str a.now ∷ []) }
    ensures { IfOk result (λ e. end_of op (Value.Str a.now ∷ []) ≡ Some e) }
{
    match op {
        Op::StrSize => Ok(number(a.len() as i64)),
        Op::IntParse => parse(alloc, a),
        _ => unreachable!(),
    }
}

pub(crate) fn on_strings(alloc: Global, op: Op, a: &[u8], b: &[u8]) -> Result<OpEnd, Memory>
    requires { Takes op (Value.Str a.now ∷ Value.Str b.now ∷ []) }
    ensures { IfOk result (λ e. end_of op (Value.Str a.now ∷ Value.Str b.now ∷ []) ≡ Some e) }
{
    let order = a.cmp(&b);
    match op {
        Op::StrLt => Ok(truth(order.is_lt())),
        Op::StrLe => Ok(truth(order.is_le())),
        Op::StrEqual => Ok(truth(order.is_eq())),
        Op::StrGe => Ok(truth(order.is_ge())),
        Op::StrGt => Ok(truth(order.is_gt())),
        Op::StrConcat => concat(alloc, a, b),
        _ => unreachable!(),
    }
}

pub(crate) fn on_string_and_char(alloc: Global, op: Op, a: &[u8], b: u8) -> Result<OpEnd, Memory>
    requires { Takes op (Value.Str a.now ∷ Value.Char b ∷ []) }
    ensures { IfOk result (λ e. end_of op (Value.Str a.now ∷ Value.Char b ∷ []) ≡ Some e) }
{
    match op {
        Op::StrAppend => concat(alloc, a, &[b]),
        _ => unreachable!(),
    }
}

pub(crate) fn on_string_and_int(alloc: Global, op: Op, a: &[u8], b: i64) -> Result<OpEnd, Memory>
    requires { Takes op (Value.Str a.now ∷ Value.Int b ∷ []) }
    ensures { IfOk result (λ e. end_of op (Value.Str a.now ∷ Value.Int b ∷ []) ≡ Some e) }
{
    match op {
        Op::StrFetch => fetch(alloc, a, b),
        _ => unreachable!(),
    }
}

pub(crate) fn on_string_and_ints(
    alloc: Global,
    op: Op,
    a: &[u8],
    b: i64,
    c: i64,
) -> Result<OpEnd, Memory>
    requires { Takes op (Value.Str a.now ∷ Value.Int b ∷ Value.Int c ∷ []) }
    ensures { IfOk result (λ e. end_of op (Value.Str a.now ∷ Value.Int b ∷ Value.Int c ∷ []) ≡ Some e) }
{
    match op {
        Op::StrSubstr => substr(alloc, a, b, c),
        _ => unreachable!(),
    }
}
