//! The trees that programs read as.

use crate::reading::repeated;
use crate::shown::{Shown, Style};
use clu_reader::{no_text_has_two_trees, read_program};
use clu_text::tokens;
use std::alloc::Global;
use std::process::Abort;

/// Whether a program is shown so.
pub fn is_shown(rt: &impl Abort, alloc: Global, style: Style, text: &str, wanted: &str) -> bool {
    assert!(rt; text.len() <= 1_048_576);
    let found = tokens(alloc, text.as_bytes()).expect(rt, "tokens");
    let program = read_program(alloc, text.as_bytes(), found.as_slice()).expect(rt, "a program");
    let shown = Shown::new(alloc, style);
    shown.program(&program);
    shown.is(wanted)
}

/// Whether the statements of a routine, from line 2 on, are shown so with their lines.
fn has_body(rt: &impl Abort, alloc: Global, text: &str, wanted: &str) -> bool {
    let whole = repeated(rt, alloc, "p = proc ()\n", text, 1, "\nend p");
    let tree = repeated(rt, alloc, "p()@1 { ", wanted, 1, " }; ");
    is_shown(rt, alloc, Style::Lines, whole.as_str(), tree.as_str())
}

#[test]
fn reads_statements_as_their_trees(rt: HostRuntime) {
    static TABLE: [(&str, &str); 12] = [
        ("x: int\ny: array[t] :=\nz", "x: int@2 y: array[t] := z@4@3"),
        (
            "x := y\nx.f\n:= y\nx[y]\n:= z",
            "x@2 := y@2@2 x@3.f@3 := y@4@3 x@5[y@5]@5 := z@6@5",
        ),
        (
            "x := once f(a,\nb) at c\nonce g() at\nd",
            "x := once f(a@2, b@3)@2 at c@3@2 once g()@4 at d@5@4",
        ),
        (
            "x :=\nmaybe f(a) at b within c\nmaybe g() at d\nwithin e",
            "x := maybe f(a@3)@3 at b@3 within c@3@2 maybe g()@4 at d@4 within e@5@4",
        ),
        (
            "f(a,\nb)\nput_line(\na)\nsleep(\nb)\nfork f(a,\nb)",
            "call f(a@2, b@3)@2@2 put_line a@5@4 sleep b@7@6 fork f(a@8, b@9)@8",
        ),
        (
            "return\nreturn (\na)\nsignal n\nsignal m (\na)",
            "return@2 return a@4@3 signal n@5 signal m a@7@6",
        ),
        (
            "if a then f()\nelseif b then g()\nelseif c then\nelse h() end\nif d then end",
            "if a@2{ call f()@2@2 } elseif b@3{ call g()@3@3 } elseif c@4{ } else{ call h()@5@5 }@2 if d@6{ }@6",
        ),
        (
            "while\na do f() end\nregion\nb do g() end\nbegin\nh() i() end",
            "while a@3{ call f()@3@3 }@2 region b@5{ call g()@5@5 }@4 begin{ call h()@7@7 call i()@7@7 }@6",
        ),
        (
            "for i: int in\nint$from_to(a,\nb) do f() end\nfor x: t in\narray[t]$elements(a) do g() end",
            "for i: int in from a@3 to b@4@3{ call f()@4@4 }@2 for x: t in array[t] of a@6@6{ call g()@6@6 }@5",
        ),
        (
            "tagcase a\ntag b: f()\ntag c (y: t): g()\nothers: h() end\ntagcase d end",
            "tagcase a@2 tag b{ call f()@3@3 } tag c (y: t){ call g()@4@4 } others{ call h()@5@5 }@2 tagcase d@6@6",
        ),
        (
            "f() except\nwhen a, b (x: int): g()\nwhen c:\nothers: h() end",
            "(call f()@2@2 except when a, b (x: int){ call g()@3@3 } when c{ } others{ call h()@5@5 })",
        ),
        (
            "return\nresignal a, b\nexcept when c: end resignal d",
            "(((return@2 resignal a, b) except when c{ }) resignal d)",
        ),
    ];
    for &(text, wanted) in &TABLE {
        assert!(rt; has_body(&rt, rt.alloc(), text, wanted), "{text}");
    }
}

#[test]
fn reads_programs_as_their_trees(rt: HostRuntime) {
    static TABLE: [(&str, &str); 7] = [
        ("", ""),
        ("a\n= int b = array[c]", "a = int@1; b = array[c]@2; "),
        (
            "nodevar a: t\nnodevar\nb: int := -5 nodevar c: lock := lock$create()\nnodevar d: semaphore := semaphore$create(3) nodevar e: array[t] := array[u]$new()",
            "nodevar a: t@1; nodevar b: int := -5@2; nodevar c: lock := lock@3; nodevar d: semaphore := semaphore 3@4; nodevar e: array[t] := none of u@4; ",
        ),
        (
            "p = proc (a: int, b: t)\nreturns (string) signals (e, f (u)) return (a) end p\nq =\nproc () end q",
            "p(a: int, b: t) returns string signals e signals f with u@1 { return a@2@2 }; q()@3 { }; ",
        ),
        (
            "p = proc () end p\nc = cluster is f, g rep = array[int] f = proc (x: cvt) end f\ng = proc () returns (cvt) end g end c\nq = proc () end q d = cluster is h rep = t end d",
            "p()@1 { }; f(x: cvt)@2 { }; g() returns cvt@3 { }; q()@4 { }; c is f, g rep array[int] from 1 count 2@2; d is h rep t from 4 count 0@4; ",
        ),
        (
            "node 1 is start p(1, -2, nil, true, 'a', \"b\")\nexport q export\nr end node\n7 is end",
            "node 1@1 start p 1 -2 nil true '97 \"b@1 export q@2 export r@2; node 7@3; ",
        ),
        (
            "hello = proc ()\n  put_line(\"hi\")\nend hello\nnode 1 is start hello() end\n",
            "hello()@1 { put_line \"hi@2@2 }; node 1@4 start hello@4; ",
        ),
    ];
    for &(text, wanted) in &TABLE {
        assert!(rt;
            is_shown(&rt, rt.alloc(), Style::Lines, text, wanted),
            "{text}"
        );
    }
    no_text_has_two_trees();
}
