ghost use Rattle.std.specs.Prelude.{◌≡◌, ◌∷◌, [], List, ℕ, ℤ, IfOk, IsTrue, replicate};
ghost use Rattle.clu_ops.specs.Ops.{Takes};

use super::*;
use clu_tree::{Op, Sig, Text, Value};
use std::alloc::{AllocError, Global};
use std::str;
use std::test::Fail;

const LEAST: i64 = i64::MIN;

const GREATEST: i64 = i64::MAX;

fn text(rt: &HostRuntime, text: &str) -> Result<Text, Fail>
    ensures { IfOk result (λ t. t ≡ text.now) }
{
    Ok(Text::from_slice(rt.alloc(), text.as_bytes())?)
}

/// A string of so many bytes.
fn long(rt: &HostRuntime, len: usize) -> Result<Value, Fail>
    ensures { IfOk result (λ v. v ≡ Value.Str (replicate len 120)) }
{
    Ok(Value::Str(Text::from_vec(vec![in rt.alloc(); b'x'; len]?)))
}

fn quoted(alloc: Global, text: &Text) -> Result<String, AllocError> {
    match str::from_utf8(text.as_slice()) {
        Ok(text) => format!(in alloc; "\"{text}\""),
        Err(_) => format!(in alloc; "bytes"),
    }
}

fn value_shown(alloc: Global, value: &Value) -> Result<String, AllocError> {
    match value {
        Value::Nil => format!(in alloc; "nil"),
        Value::Bool(truth) => format!(in alloc; "{truth}"),
        Value::Int(number) => format!(in alloc; "{number}"),
        Value::Char(code) => format!(in alloc; "char {code}"),
        Value::Str(text) => quoted(alloc, text),
        Value::Ref(_) => format!(in alloc; "object"),
    }
}

fn sig_shown(alloc: Global, sig: &Sig) -> Result<String, AllocError> {
    let name = str::from_utf8(sig.name.as_slice()).unwrap_or("bytes");
    match &sig.value {
        None => format!(in alloc; "signal {name}"),
        Some(value) => {
            let value = value_shown(alloc, value)?;
            format!(in alloc; "signal {name} {value}")
        }
    }
}

/// How an operation ends, as a text.
fn end(rt: &HostRuntime, op: Op, args: &[Value]) -> Result<String, Fail>
    requires { Takes op args.now }
{
    match apply(rt.alloc(), op, args)? {
        OpEnd::Value(value) => Ok(value_shown(rt.alloc(), &value)?),
        OpEnd::Signal(sig) => Ok(sig_shown(rt.alloc(), &sig)?),
    }
}

/// Whether the operation takes two ints.
fn takes_ints(op: Op) -> bool
    ensures { IsTrue result → (a b : ℤ) → Takes op (Value.Int a ∷ Value.Int b ∷ []) }
{
    match op {
        Op::IntAdd | Op::IntSub | Op::IntMul | Op::IntDiv | Op::IntMod => true,
        Op::IntLt | Op::IntLe | Op::IntEqual | Op::IntGe | Op::IntGt => true,
        _ => false,
    }
}

/// Whether the operation takes two chars.
fn takes_chars(op: Op) -> bool
    ensures { IsTrue result → (a b : ℕ) → Takes op (Value.Char a ∷ Value.Char b ∷ []) }
{
    matches!(
        op,
        Op::CharLt | Op::CharLe | Op::CharEqual | Op::CharGe | Op::CharGt
    )
}

/// Whether the operation takes two strings.
fn takes_strings(op: Op) -> bool
    ensures { IsTrue result → (a b : List ℕ) → Takes op (Value.Str a ∷ Value.Str b ∷ []) }
{
    match op {
        Op::StrLt | Op::StrLe | Op::StrEqual | Op::StrGe | Op::StrGt | Op::StrConcat => true,
        _ => false,
    }
}

fn int_end(rt: &HostRuntime, op: Op, a: i64, b: i64) -> Result<String, Fail> {
    if !takes_ints(op) {
        return Err("not on ints".into());
    }
    end(rt, op, &[Value::Int(a), Value::Int(b)])
}

fn char_end(rt: &HostRuntime, op: Op, a: u8, b: u8) -> Result<String, Fail> {
    if !takes_chars(op) {
        return Err("not on chars".into());
    }
    end(rt, op, &[Value::Char(a), Value::Char(b)])
}

fn string_end(rt: &HostRuntime, op: Op, a: &str, b: &str) -> Result<String, Fail> {
    if !takes_strings(op) {
        return Err("not on strings".into());
    }
    end(
        rt,
        op,
        &[Value::Str(text(rt, a)?), Value::Str(text(rt, b)?)],
    )
}

fn parse(rt: &HostRuntime, numeral: &str) -> Result<String, Fail> {
    end(rt, Op::IntParse, &[Value::Str(text(rt, numeral)?)])
}

fn fetch(rt: &HostRuntime, string: &str, at: i64) -> Result<String, Fail> {
    end(
        rt,
        Op::StrFetch,
        &[Value::Str(text(rt, string)?), Value::Int(at)],
    )
}

fn substr(rt: &HostRuntime, string: &str, at: i64, count: i64) -> Result<String, Fail> {
    end(
        rt,
        Op::StrSubstr,
        &[
            Value::Str(text(rt, string)?),
            Value::Int(at),
            Value::Int(count),
        ],
    )
}

#[test]
fn on_two_ints(rt: HostRuntime) -> Result<(), Fail> {
    let table = [
        (Op::IntDiv, -7, 2, "-4"),
        (Op::IntMod, -7, 2, "1"),
        (Op::IntDiv, 7, 0, "signal zero_divide"),
        (Op::IntMod, LEAST, 0, "signal zero_divide"),
        (Op::IntDiv, 7, -2, "-3"),
        (Op::IntMod, 7, -2, "1"),
        (Op::IntDiv, -7, -2, "4"),
        (Op::IntMod, -7, -2, "1"),
        (Op::IntMod, -8, 2, "0"),
        (Op::IntDiv, LEAST, -1, "signal overflow"),
        (Op::IntMod, LEAST, -1, "signal overflow"),
        (Op::IntDiv, LEAST, 1, "-9223372036854775808"),
        (Op::IntMod, -1, LEAST, "9223372036854775807"),
        (Op::IntAdd, 2, 3, "5"),
        (Op::IntAdd, GREATEST, 1, "signal overflow"),
        (Op::IntSub, 2, 3, "-1"),
        (Op::IntSub, LEAST, 1, "signal overflow"),
        (Op::IntSub, -1, GREATEST, "-9223372036854775808"),
        (Op::IntMul, -4, 3, "-12"),
        (Op::IntMul, LEAST, -1, "signal overflow"),
        (Op::IntMul, 4294967296, 2147483648, "signal overflow"),
        (Op::IntMul, -4294967296, 2147483648, "-9223372036854775808"),
        (Op::IntLt, -1, 0, "true"),
        (Op::IntLt, 0, 0, "false"),
        (Op::IntLe, 0, 0, "true"),
        (Op::IntLe, 1, 0, "false"),
        (Op::IntEqual, LEAST, LEAST, "true"),
        (Op::IntEqual, -1, 1, "false"),
        (Op::IntGe, 0, 0, "true"),
        (Op::IntGt, 0, 0, "false"),
        (Op::IntGt, GREATEST, LEAST, "true"),
    ];
    for (op, a, b, wanted) in table {
        assert_eq!(rt;
            int_end(&rt, op, a, b)?.as_str(),
            wanted,
            "{op:?} of {a} and {b}"
        );
    }
    Ok(())
}

#[test]
fn on_one_int(rt: HostRuntime) -> Result<(), Fail> {
    let table = [
        (7, "-7", "\"7\"", "char 7"),
        (0, "0", "\"0\"", "char 0"),
        (255, "-255", "\"255\"", "char 255"),
        (256, "-256", "\"256\"", "signal illegal_char"),
        (-1, "1", "\"-1\"", "signal illegal_char"),
        (
            LEAST,
            "signal overflow",
            "\"-9223372036854775808\"",
            "signal illegal_char",
        ),
    ];
    for (a, minus, unparse, i2c) in table {
        assert_eq!(rt; end(&rt, Op::IntMinus, &[Value::Int(a)])?.as_str(), minus);
        assert_eq!(rt;
            end(&rt, Op::IntUnparse, &[Value::Int(a)])?.as_str(),
            unparse
        );
        assert_eq!(rt; end(&rt, Op::CharI2c, &[Value::Int(a)])?.as_str(), i2c);
    }
    Ok(())
}

#[test]
fn parses(rt: HostRuntime) -> Result<(), Fail> {
    let table = [
        ("-9223372036854775808", "-9223372036854775808"),
        ("9223372036854775807", "9223372036854775807"),
        ("9223372036854775808", "signal overflow"),
        ("-9223372036854775809", "signal overflow"),
        ("99999999999999999999999999", "signal overflow"),
        ("99999999999999999999999999x", "signal bad_format"),
        ("00", "0"),
        ("-0", "0"),
        ("007", "7"),
        ("", "signal bad_format"),
        ("-", "signal bad_format"),
        ("+1", "signal bad_format"),
        ("--1", "signal bad_format"),
        ("-+1", "signal bad_format"),
        (" 1", "signal bad_format"),
        ("1_0", "signal bad_format"),
    ];
    for (numeral, wanted) in table {
        assert_eq!(rt; parse(&rt, numeral)?.as_str(), wanted, "{numeral}");
    }
    Ok(())
}

#[test]
fn on_bools(rt: HostRuntime) -> Result<(), Fail> {
    let table = [
        (false, false, "false", "false", "true"),
        (false, true, "false", "true", "false"),
        (true, false, "false", "true", "false"),
        (true, true, "true", "true", "true"),
    ];
    for (a, b, and, or, equal) in table {
        let both = [Value::Bool(a), Value::Bool(b)];
        assert_eq!(rt; end(&rt, Op::BoolAnd, &both)?.as_str(), and);
        assert_eq!(rt; end(&rt, Op::BoolOr, &both)?.as_str(), or);
        assert_eq!(rt; end(&rt, Op::BoolEqual, &both)?.as_str(), equal);
    }
    assert_eq!(rt;
        end(&rt, Op::BoolNot, &[Value::Bool(true)])?.as_str(),
        "false"
    );
    assert_eq!(rt;
        end(&rt, Op::NullEqual, &[Value::Nil, Value::Nil])?.as_str(),
        "true"
    );
    Ok(())
}

#[test]
fn on_chars(rt: HostRuntime) -> Result<(), Fail> {
    let table = [
        (Op::CharLt, b'a', b'b', "true"),
        (Op::CharLe, b'a', b'a', "true"),
        (Op::CharEqual, b'a', b'A', "false"),
        (Op::CharGe, b'a', b'b', "false"),
        (Op::CharGt, 255, 0, "true"),
    ];
    for (op, a, b, wanted) in table {
        assert_eq!(rt;
            char_end(&rt, op, a, b)?.as_str(),
            wanted,
            "{op:?} of {a} and {b}"
        );
    }
    assert_eq!(rt; end(&rt, Op::CharC2i, &[Value::Char(255)])?.as_str(), "255");
    Ok(())
}

#[test]
fn on_two_strings(rt: HostRuntime) -> Result<(), Fail> {
    let table = [
        (Op::StrLt, "ab", "b", "true"),
        (Op::StrLt, "Z", "a", "true"),
        (Op::StrLt, "ab", "ab", "false"),
        (Op::StrLt, "", "a", "true"),
        (Op::StrLe, "ab", "ab", "true"),
        (Op::StrLe, "abc", "ab", "false"),
        (Op::StrEqual, "ab", "ab", "true"),
        (Op::StrEqual, "ab", "abc", "false"),
        (Op::StrGe, "", "", "true"),
        (Op::StrGt, "10", "9", "false"),
        (Op::StrConcat, "ab", "c", "\"abc\""),
    ];
    for (op, a, b, wanted) in table {
        assert_eq!(rt;
            string_end(&rt, op, a, b)?.as_str(),
            wanted,
            "{op:?} of {a} and {b}"
        );
    }
    Ok(())
}

#[test]
fn fetches(rt: HostRuntime) -> Result<(), Fail> {
    let table = [
        (1, "char 97"),
        (3, "char 99"),
        (0, "signal bounds"),
        (4, "signal bounds"),
        (LEAST, "signal bounds"),
    ];
    for (at, wanted) in table {
        assert_eq!(rt; fetch(&rt, "abc", at)?.as_str(), wanted, "{at}");
    }
    Ok(())
}

#[test]
fn parts_of_a_string(rt: HostRuntime) -> Result<(), Fail> {
    let table = [
        (1, 2, "\"ab\""),
        (2, GREATEST, "\"bc\""),
        (4, 1, "\"\""),
        (5, 0, "signal bounds"),
        (0, 1, "signal bounds"),
        (0, -1, "signal negative_size"),
        (LEAST, 0, "signal bounds"),
    ];
    for (at, count, wanted) in table {
        assert_eq!(rt;
            substr(&rt, "abc", at, count)?.as_str(),
            wanted,
            "{count} from {at}"
        );
    }
    assert_eq!(rt;
        end(&rt, Op::StrSize, &[Value::Str(text(&rt, "abc")?)])?.as_str(),
        "3"
    );
    Ok(())
}

/// A string has 1,024 bytes at most.
#[test]
fn longest_string(rt: HostRuntime) -> Result<(), Fail> {
    let limit = "signal failure \"string limit\"";
    for (len, fails) in [(1023, false), (1024, true)] {
        let appended = end(&rt, Op::StrAppend, &[long(&rt, len)?, Value::Char(b'x')])?;
        assert_eq!(rt; appended.as_str() == limit, fails);
        let joined = end(&rt, Op::StrConcat, &[long(&rt, len)?, long(&rt, 1)?])?;
        assert_eq!(rt; joined.as_str() == limit, fails);
        let quoted_len = if fails { limit.len() } else { 1026 };
        assert_eq!(rt; (appended.len(), joined.len()), (quoted_len, quoted_len));
    }
    Ok(())
}
