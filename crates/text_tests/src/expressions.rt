//! Expressions that read, and some that do not.

use crate::reading::failing_expression;

#[test]
fn reads_each_expression(rt: HostRuntime) {
    static TABLE: [&str; 39] = [
        "1",
        "'a'",
        "\"s\"",
        "nil",
        "true",
        "false",
        "now()",
        "(1)",
        "((1))",
        "-1",
        "- -1",
        "~~b",
        "-a.f",
        "a + b - c || d",
        "a * b / c // d",
        "a < b",
        "a <= b",
        "a = b",
        "a ~= b",
        "a >= b",
        "a > b",
        "a & b cand c",
        "a | b cor c",
        "a + b < c * d & e | f",
        "(a < b) = (c < d)",
        "f()",
        "f(1)",
        "t${f: 1}",
        "t${f: 1, g: 2}",
        "t$[]",
        "t$[1]",
        "record[a: int]${a: 1}",
        "oneof[a: int, b: null]$make_a(1)",
        "up(x)",
        "down(x).f",
        "a[b[c]].d[e]",
        "t$and(a, b)",
        "int$unparse(-7 // 2)",
        "f(g(h(1)), 2)[3]",
    ];
    for &text in &TABLE {
        assert!(rt; failing_expression(&rt, rt.alloc(), text) == 0, "{text}");
    }
}

#[test]
fn refuses_each_expression(rt: HostRuntime) {
    static TABLE: [&str; 47] = [
        "a < b < c",
        "a = b = c",
        "a +",
        "~",
        "-",
        "(1",
        "()",
        "1)",
        "t${}",
        "t${f}",
        "t${f: 1,}",
        "t$[1,]",
        "t$[1",
        "f(1,)",
        "f(1",
        "a.",
        "a.1",
        "a[1",
        "a[]",
        "t$",
        "t$1",
        "t$x",
        "now",
        "now(1)",
        "up x",
        "up(1",
        "up()",
        "a ~ b",
        "a b",
        "lock$",
        "array[int]",
        "if",
        "a := b",
        "a | | b",
        "a cor",
        "a & & b",
        "a cand",
        "a <",
        "a ~= b = c",
        "a - || b",
        "a * / b",
        "* a",
        "a //",
        "down x",
        "down(1",
        "t${f 1}",
        "a[1)",
    ];
    for &text in &TABLE {
        assert!(rt; failing_expression(&rt, rt.alloc(), text) == 2, "{text}");
    }
}
