//! Programs that are accepted, and where others are refused.

use clu_reader::{AcceptFault, accept};
use clu_tree::Program;
use std::alloc::Global;
use std::process::Abort;

const HELLO: &str = "hello = proc ()\n  put_line(\"hi\")\nend hello\nnode 1 is start hello() end\n";

/// How many statements the accepted program has, or the line where it is refused.
fn answer(rt: &impl Abort, alloc: Global, text: &str) -> Result<usize, u32> {
    assert!(rt; text.len() <= 1_048_576);
    match accept(alloc, text.as_bytes()) {
        Ok(program) => Ok(statements(&program)),
        Err(AcceptFault::Refused(line)) => Err(line),
        Err(AcceptFault::Memory) => panic!(rt; "memory ran out"),
    }
}

fn statements(program: &Program) -> usize {
    match program.routines.as_slice() {
        [routine] => routine.body.len(),
        _ => 0,
    }
}

#[test]
fn accepts_and_refuses(rt: HostRuntime) {
    static TABLE: [(&str, Result<usize, u32>); 37] = [
        (HELLO, Ok(1)),
        ("node 1 is end", Ok(0)),
        ("node 01 is end", Ok(0)),
        ("node 1is end", Ok(0)),
        ("node\t1\r\nis\tend\r\n", Ok(0)),
        ("a = proc () end a\nnode 1 is start a() end", Ok(0)),
        (
            "a=proc()put_line(((\"x\")))put_line(\"\")end a node 1 is end",
            Ok(2),
        ),
        (
            "ends1_ = proc () end ends1_ node 1 is start ends1_() end",
            Ok(0),
        ),
        ("", Err(1)),
        ("\n\n", Err(1)),
        ("node", Err(1)),
        ("node 1 is\n\n", Err(2)),
        ("node 1 is", Err(1)),
        ("node is end", Err(1)),
        ("node 1 end", Err(1)),
        ("Node 1 is end", Err(1)),
        ("\nnode 0 is end", Err(2)),
        ("node 2 is end", Err(1)),
        ("node 9223372036854775807 is end", Err(1)),
        ("node 9223372036854775808 is end", Err(1)),
        ("node 1 is end\nnode 2 is end", Err(2)),
        ("node 1 is\nexport a end", Err(2)),
        ("% c\nnode 1 is end % d", Ok(0)),
        ("a = proc ()\nend b\nnode 1 is end", Err(2)),
        ("a = proc ()\n\nnode 1 is end", Err(3)),
        (
            "a = proc () end a\nb = proc () end b\nnode 1 is end",
            Err(2),
        ),
        ("a = proc (x: int) end a\nnode 1 is end", Err(1)),
        ("string = proc () end string\nnode 1 is end", Err(1)),
        (
            "a = proc ()\nput_line(\"\\n\")\nend a\nnode 1 is end",
            Ok(1),
        ),
        ("a = proc ()\nput_line(\"x\nend a\nnode 1 is end", Err(2)),
        (
            "a = proc ()\nput_line((\"x\")\nend a\nnode 1 is end",
            Err(3),
        ),
        ("a = proc ()\nput_line(1)\nend a\nnode 1 is end", Err(2)),
        ("a = proc () end a\nnode 1 is\nstart b() end", Err(3)),
        (
            "a = proc () end a\nnode 1 is start a()\nstart a() end",
            Err(3),
        ),
        ("a = proc ()\n  x := 'ab'\nend a", Err(2)),
        ("a = proc ()\n  X := 1\nend a", Err(2)),
        (
            "a = proc ()\n  x := 1\n  y := 9223372036854775808\nend a",
            Err(3),
        ),
    ];
    for &(text, wanted) in &TABLE {
        assert!(rt; answer(&rt, rt.alloc(), text) == wanted, "{text}");
    }
}

#[test]
fn types_statements(rt: HostRuntime) {
    static TABLE: [(&str, Result<usize, u32>); 14] = [
        ("a = proc ()\nsleep(100)\nend a\nnode 1 is end", Ok(1)),
        ("a = proc ()\nsleep((7))\nend a\nnode 1 is end", Ok(1)),
        (
            "a = proc ()\nsleep(0)put_line(\"x\")\nend a\nnode 1 is end",
            Ok(2),
        ),
        (
            "a = proc ()\nsleep(9223372036854775807)\nend a\nnode 1 is end",
            Ok(1),
        ),
        (
            "a = proc ()\nsleep(9223372036854775808)\nend a\nnode 1 is end",
            Err(2),
        ),
        ("a = proc ()\nsleep(-1)\nend a\nnode 1 is end", Err(2)),
        ("a = proc ()\nsleep()\nend a\nnode 1 is end", Err(2)),
        ("a = proc ()\nsleep 5\nend a\nnode 1 is end", Err(2)),
        ("a = proc ()\nsleep(1\nend a\nnode 1 is end", Err(3)),
        ("a = proc ()\nsleep(\"x\")\nend a\nnode 1 is end", Err(2)),
        ("a = proc ()\n\nput_line(5)\nend a\nnode 1 is end", Err(3)),
        (
            "a = proc ()\nsleep(\"x\")\nsleep(1)\nend a\nnode 2 is end",
            Err(2),
        ),
        (
            "a = proc ()\nsleep(1)\nsleep(\n\"x\")\nend a\nnode 1 is end",
            Err(3),
        ),
        (
            "a = proc ()\nsleep(1)\nput_line(5)\nend a\nnode 1 is end",
            Err(3),
        ),
    ];
    for &(text, wanted) in &TABLE {
        assert!(rt; answer(&rt, rt.alloc(), text) == wanted, "{text}");
    }
}
