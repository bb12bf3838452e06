//! Texts that nest 200 deep, and one level deeper.

use crate::reading::{failing_line, failing_statement, repeated};
use std::alloc::Global;
use std::process::Abort;

/// What stands before, what is repeated, the middle, what closes each, and how often.
type Way = (
    &'static str,
    &'static str,
    &'static str,
    &'static str,
    usize,
);

/// Where statements fail that nest so often.
fn nested(rt: &impl Abort, alloc: Global, way: Way, times: usize) -> u32 {
    let (before, piece, middle, close, _) = way;
    let opened = repeated(rt, alloc, before, piece, times, middle);
    let whole = repeated(rt, alloc, opened.as_str(), close, times, "");
    failing_statement(rt, alloc, whole.as_str())
}

static WAYS: [Way; 62] = [
    ("x := ", "-", "1", "", 198),
    ("x := ", "~", "a", "", 198),
    ("x := 1", "+1", "", "", 198),
    ("x := a", "|b", "", "", 198),
    ("x := ", "f(", "1", ")", 198),
    ("x := ", "t$op(", "1", ")", 198),
    ("x := ", "a[", "1", "]", 198),
    ("x := a", ".b", "", "", 198),
    ("x := a", "[1]", "", "", 198),
    ("x := ", "up(", "1", ")", 198),
    ("x := ", "t$[", "1", "]", 198),
    ("x := ", "t${f: ", "1", "}", 198),
    ("x := ", "(a = ", "a", ")", 198),
    ("x := ", "(a ~= ", "a", ")", 99),
    ("x := ", "(a * ", "a", ")", 198),
    ("x := ", "(", "a", ").b", 198),
    ("x: ", "array[", "int", "]", 198),
    ("x: ", "record[a: ", "int", "]", 198),
    ("x: ", "oneof[a: ", "int", "]", 198),
    ("", "begin ", "", " end", 200),
    ("", "if a then ", "", " end", 199),
    ("", "if a then else ", "", " end", 199),
    ("", "while a do ", "", " end", 199),
    ("", "region a do ", "", " end", 199),
    ("", "for i: t in t$elements(a) do ", "", " end", 199),
    ("", "tagcase a tag b: ", "", " end", 199),
    ("", "tagcase a others: ", "", " end", 199),
    ("f()", " resignal a", "", "", 198),
    ("f()", " except end", "", "", 198),
    ("", "return except others: ", "", " end", 199),
    ("", "f(", "1", ")", 198),
    ("a", ".b", ".c := 1", "", 198),
    ("x := ", "(-", "1", ")", 198),
    ("x := ", "down(", "1", ")", 198),
    ("", "if a then elseif b then ", "", " end", 199),
    ("", "return except when a: ", "", " end", 199),
    ("return (", "-", "1)", "", 198),
    ("signal n (", "-", "1)", "", 198),
    ("fork f(", "-", "1)", "", 198),
    ("once f(", "-", "1) at 1", "", 198),
    ("once f() at ", "-", "1", "", 198),
    ("maybe f() at 1 within ", "-", "1", "", 198),
    ("a[", "-", "1] := 2", "", 198),
    ("x := 1", "*1", "", "", 198),
    ("x := a", "&b", "", "", 198),
    ("x := ", "f(1, ", "1", ")", 198),
    ("x := ", "t${f: 1, g: ", "1", "}", 198),
    ("x := ", "t$[1, ", "1", "]", 198),
    ("x: int := ", "-", "1", "", 198),
    ("put_line(", "-", "1)", "", 198),
    ("sleep(", "-", "1)", "", 198),
    ("t$op(", "-", "1)", "", 197),
    ("maybe f(", "-", "1) at 1 within 1", "", 198),
    ("maybe f() at ", "-", "1 within 1", "", 198),
    ("if ", "-", "a then end", "", 198),
    ("if a then elseif ", "-", "a then end", "", 198),
    ("while ", "-", "a do end", "", 198),
    ("region ", "-", "a do end", "", 198),
    ("tagcase ", "-", "a end", "", 198),
    ("for i: t in int$from_to(", "-", "1, 2) do end", "", 198),
    ("for i: t in int$from_to(1, ", "-", "2) do end", "", 198),
    ("for i: t in t$elements(", "-", "a) do end", "", 198),
];

#[test]
fn nests_200_deep(rt: HostRuntime) {
    for &way in &WAYS {
        let deep = nested(&rt, rt.alloc(), way, way.4);
        let deeper = nested(&rt, rt.alloc(), way, way.4.saturating_add(1));
        assert!(rt; deep == 0 && deeper == 2, "{}", way.1);
    }
}

/// Where a program fails that has a type of so many levels between these texts.
fn nested_type(rt: &impl Abort, alloc: Global, before: &str, behind: &str, times: usize) -> u32 {
    let opened = repeated(rt, alloc, before, "array[", times, "int");
    let whole = repeated(rt, alloc, opened.as_str(), "]", times, behind);
    failing_line(rt, alloc, whole.as_bytes())
}

#[test]
fn types_nest_200_deep(rt: HostRuntime) {
    static TABLE: [(&str, &str, usize); 18] = [
        ("a = ", "", 199),
        ("nodevar a: ", "", 199),
        ("nodevar a: int := array[", "]$new()", 199),
        ("a = proc (b: ", ") end a", 199),
        ("a = proc () returns (", ") end a", 199),
        ("a = proc () signals (b (", ")) end a", 199),
        ("a = cluster is b rep = ", " end a", 199),
        (
            "a = cluster is b rep = int b = proc (c: ",
            ") end b end a",
            199,
        ),
        ("a = proc () x: ", " end a", 198),
        ("a = proc () for i: ", " in t$elements(x) do end end a", 198),
        ("a = proc () for i: t in ", "$elements(x) do end end a", 198),
        ("a = proc () tagcase x tag y (z: ", "): end end a", 198),
        ("a = proc () f() except when y (z: ", "): end end a", 198),
        ("a = proc () x := ", "$op() end a", 197),
        ("a = proc () ", "$op() end a", 197),
        ("a = proc () x := ", "${f: 1} end a", 197),
        ("a = proc () x := ", "$[] end a", 197),
        ("a = proc () ", "$[][1] := 2 end a", 197),
    ];
    for &(before, behind, times) in &TABLE {
        let deep = nested_type(&rt, rt.alloc(), before, behind, times);
        let deeper = nested_type(&rt, rt.alloc(), before, behind, times.saturating_add(1));
        assert!(rt; deep == 0 && deeper == 1, "{behind}");
    }
}
