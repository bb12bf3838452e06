//! The trees that expressions and types read as.

use crate::reading::repeated;
use crate::shown::Style;
use crate::trees::is_shown;
use std::alloc::Global;
use std::process::Abort;

/// Whether an expression that stands on line 1 is shown so, without lines.
fn is_plain(rt: &impl Abort, alloc: Global, text: &str, wanted: &str) -> bool {
    let whole = repeated(rt, alloc, "p = proc () x := ", text, 1, "\nend p");
    let tree = repeated(rt, alloc, "p() { x := ", wanted, 1, " }; ");
    is_shown(rt, alloc, Style::Plain, whole.as_str(), tree.as_str())
}

/// The same with the lines.
fn is_on_lines(rt: &impl Abort, alloc: Global, text: &str, wanted: &str) -> bool {
    let whole = repeated(rt, alloc, "p = proc () x := ", text, 1, "\nend p");
    let tree = repeated(rt, alloc, "p()@1 { x@1 := ", wanted, 1, "@1 }; ");
    is_shown(rt, alloc, Style::Lines, whole.as_str(), tree.as_str())
}

#[test]
fn reads_each_primary(rt: HostRuntime) {
    static TABLE: [(&str, &str); 26] = [
        ("5", "5"),
        ("'A'", "'65"),
        ("\"hi\"", "\"hi"),
        ("nil", "nil"),
        ("true", "true"),
        ("false", "false"),
        ("a", "a"),
        ("f()", "f()"),
        ("f(1, a, \"x\")", "f(1, a, \"x)"),
        ("int$parse(s)", "int$parse(s)"),
        ("t$f()", "t$f()"),
        ("semaphore$signal(s)", "semaphore$signal(s)"),
        ("array[int]$f()", "array[int]$f()"),
        ("pair${x: 1, y: a.b}", "pair${x: 1, y: a.b}"),
        ("ints$[]", "ints$[]"),
        ("ints$[1, 2]", "ints$[1, 2]"),
        ("(a)", "a"),
        ("up(a)", "up(a)"),
        ("down(a + 1)", "down((a + 1))"),
        ("now()", "now()"),
        ("a.b.c", "a.b.c"),
        ("a[i][j]", "a[i][j]"),
        ("f().b[1]", "f().b[1]"),
        ("(a + b).c", "(a + b).c"),
        ("(f(x))", "f(x)"),
        ("f(x).g", "f(x).g"),
    ];
    for &(text, wanted) in &TABLE {
        assert!(rt; is_plain(&rt, rt.alloc(), text, wanted), "{text}");
    }
}

#[test]
fn groups_operators(rt: HostRuntime) {
    static TABLE: [(&str, &str); 29] = [
        ("a * b / c // d", "(((a * b) / c) // d)"),
        ("a + b - c || d", "(((a + b) - c) || d)"),
        ("a < b", "(a < b)"),
        ("a <= b", "(a <= b)"),
        ("a = b", "(a = b)"),
        ("a ~= b", "(~(a = b))"),
        ("a >= b", "(a >= b)"),
        ("a > b", "(a > b)"),
        ("a & b cand c", "((a & b) cand c)"),
        ("a | b cor c", "((a | b) cor c)"),
        ("a + b * c", "(a + (b * c))"),
        ("a < b + c", "(a < (b + c))"),
        ("a & b < c", "(a & (b < c))"),
        ("a | b & c", "(a | (b & c))"),
        ("a * b + c < d & e | f", "(((((a * b) + c) < d) & e) | f)"),
        ("a < b & c < d", "((a < b) & (c < d))"),
        ("a * (b + c)", "(a * (b + c))"),
        ("a - (b - c)", "(a - (b - c))"),
        ("(a - b) - c", "((a - b) - c)"),
        ("((a) + b) * c", "((a + b) * c)"),
        ("-a", "(-a)"),
        ("~~a", "(~(~a))"),
        ("-a.b * c", "((-a.b) * c)"),
        ("-1 + 2", "((-1) + 2)"),
        ("~a & b", "((~a) & b)"),
        ("~a ~= b", "(~((~a) = b))"),
        ("-(a + b)", "(-(a + b))"),
        ("a - -b", "(a - (-b))"),
        ("f(x).a + b", "(f(x).a + b)"),
    ];
    for &(text, wanted) in &TABLE {
        assert!(rt; is_plain(&rt, rt.alloc(), text, wanted), "{text}");
    }
}

#[test]
fn nodes_take_the_line_of_their_first_token(rt: HostRuntime) {
    static TABLE: [(&str, &str); 15] = [
        ("a\n+\nb", "(a@1 + b@3)@1"),
        ("(\na)\n+ b", "(a@2 + b@3)@1"),
        ("(\n(\na)).b", "a@3.b@1"),
        ("(\n(\na)[1])", "a@3[1@3]@2"),
        ("\n-\na", "(-a@3)@2"),
        ("f\n(\n1)", "f(1@3)@1"),
        ("int\n$f()", "int$f()@1"),
        ("p${x:\n1}", "p${x: 1@2}@1"),
        ("\np$[\n1]", "p$[1@3]@2"),
        ("up\n(a)", "up(a@2)@1"),
        ("\nnow()", "now()@2"),
        ("a\n~= b", "(~(a@1 = b@2)@1)@1"),
        ("a\n.b\n[1]", "a@1.b@1[1@3]@1"),
        ("a *\nb + c", "((a@1 * b@2)@1 + c@2)@1"),
        ("a +\nb * c", "(a@1 + (b@2 * c@2)@2)@1"),
    ];
    for &(text, wanted) in &TABLE {
        assert!(rt; is_on_lines(&rt, rt.alloc(), text, wanted), "{text}");
    }
}

/// Each type stands in that of an empty array.
#[test]
fn reads_types(rt: HostRuntime) {
    static TABLE: [&str; 14] = [
        "null",
        "bool",
        "int",
        "char",
        "string",
        "lock",
        "semaphore",
        "cvt",
        "rep",
        "t",
        "array[array[int]]",
        "record[x: int]",
        "record[x: int, y: t]",
        "oneof[x: null, y: array[t]]",
    ];
    for &text in &TABLE {
        let empty = repeated(&rt, rt.alloc(), "array[", text, 1, "]$[]");
        assert!(rt;
            is_plain(&rt, rt.alloc(), empty.as_str(), empty.as_str()),
            "{text}"
        );
    }
}
