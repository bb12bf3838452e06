//! Parts of programs that read, and some that do not.

use crate::reading::failing_line;

#[test]
fn reads_each_part(rt: HostRuntime) {
    static TABLE: [&str; 24] = [
        "",
        "a = int",
        "a = record[b: c]",
        "nodevar a: int",
        "nodevar a: int := 1",
        "nodevar a: int := -1",
        "nodevar a: bool := true",
        "nodevar a: null := nil",
        "nodevar a: char := 'b'",
        "nodevar a: string := \"b\"",
        "nodevar a: lock := lock$create()",
        "nodevar a: semaphore := semaphore$create(3)",
        "nodevar a: array[int] := array[int]$new()",
        "a = proc () end a",
        "a = proc (b: int, c: d) returns (e) signals (f, g (int)) end a",
        "a = proc () signals (failure (string)) return end a",
        "a = cluster is b rep = int end a",
        "a = cluster is b, c rep = array[int] b = proc () returns (cvt) return (rep$new()) end b c = proc (x: cvt) end c end a",
        "node 1 is end",
        "node 0 is end",
        "node 1 is export a export b start c() start d(1, -2, nil, true, 'a', \"b\") end",
        "node 1 is end node 2 is end a = proc () end a",
        "nodevar a: bool := false nodevar b: int := - 9223372036854775807",
        "a = cluster is print rep = null end a b = string c = bool d = semaphore e = lock",
    ];
    for &text in &TABLE {
        assert!(rt;
            failing_line(&rt, rt.alloc(), text.as_bytes()) == 0,
            "{text}"
        );
    }
}

#[test]
fn refuses_each_part(rt: HostRuntime) {
    static TABLE: [(&str, u32); 52] = [
        ("a", 1),
        ("a =", 1),
        ("a =\n1", 2),
        ("1", 1),
        ("nodevar", 1),
        ("nodevar a", 1),
        ("nodevar a:", 1),
        ("nodevar a: int :=", 1),
        ("nodevar a: int := b", 1),
        ("nodevar a: int := - true", 1),
        ("nodevar a: lock := lock$new()", 1),
        ("nodevar a: lock := lock$create(1)", 1),
        ("nodevar a: semaphore := semaphore$create()", 1),
        ("nodevar a: semaphore := semaphore$create(-1)", 1),
        ("nodevar a: array[int] := array[int]$create()", 1),
        ("a = proc end a", 1),
        ("a = proc ( end a", 1),
        ("a = proc (b) end a", 1),
        ("a = proc (b: int,) end a", 1),
        ("a = proc () returns int end a", 1),
        ("a = proc () returns () end a", 1),
        ("a = proc () signals () end a", 1),
        ("a = proc () signals (f (int) end a", 1),
        ("a = proc ()\nend b", 2),
        ("a = proc ()\nend", 2),
        ("a = proc ()\n", 1),
        ("a = cluster is rep = int end a", 1),
        ("a = cluster is b end a", 1),
        ("a = cluster is b rep int end a", 1),
        ("a = cluster is b rep = int\nend c", 2),
        ("a = cluster is b rep = int c = int end a", 1),
        ("node is end", 1),
        ("node -1 is end", 1),
        ("node 1 end", 1),
        ("node 1 is", 1),
        ("node 1 is start a end", 1),
        ("node 1 is start a(b) end", 1),
        ("node 1 is start a(1,) end", 1),
        ("node 1 is export end", 1),
        ("node 1 is a() end", 1),
        ("node 1 is end end", 1),
        ("end", 1),
        ("a = proc () signals (f) returns (int) end a", 1),
        ("a = proc () signals (f,) end a", 1),
        ("a = cluster is b, rep = int end a", 1),
        ("end = proc () end end", 1),
        ("nodevar a: record[b: int] := record[b: int]$new()", 1),
        ("node 1 is start a(-nil) end", 1),
        ("node", 1),
        ("nodevar a: int := ()", 1),
        ("a = cluster is b rep = int b = proc () end b", 1),
        ("node 1 is export a, b end", 1),
    ];
    for &(text, line) in &TABLE {
        assert!(rt;
            failing_line(&rt, rt.alloc(), text.as_bytes()) == line,
            "{text}"
        );
    }
}

#[test]
fn names_the_line_where_reading_fails(rt: HostRuntime) {
    static TABLE: [(&str, u32); 20] = [
        ("a = proc ()\n  x := 1 +\n  * 2\nend a", 3),
        ("a = proc ()\n  f(1,\n    2\n  g()\nend a", 4),
        ("a = proc ()\n  f(1,\n    2))\nend a", 3),
        (
            "a = proc ()\n  if b then\n  else\n  elseif c then\n  end\nend a",
            4,
        ),
        (
            "a = proc ()\n  while b do\n    f()\nend a\n\nnode 1 is end\n",
            6,
        ),
        ("a = proc ()\n  f()\n  end\nend a", 4),
        ("a = proc ()\n  return (1\n\nend a\n\n", 4),
        ("a = proc ()\nend a\nnode 1 is\n  start a()\n  stop\nend", 5),
        ("a = proc ()\nend a\nnode 1 is\n  start a()\n\n", 5),
        (
            "a = cluster is b\n  rep = int\n  b = proc ()\n  end c\nend a",
            4,
        ),
        ("a = proc (b: int,\n  c)\nend a", 2),
        ("a = proc ()\n  returns (int)\n  signals (b\nc) end a", 4),
        ("a = cluster is b,\n\nrep = int end a", 3),
        ("nodevar a: int := -\n  b", 2),
        ("a = record[b: int,\n  c: int\n  d: int]", 3),
        (
            "a = proc ()\n  f() except\n    when b:\n    others: g()\n    when c: end\nend a",
            5,
        ),
        (
            "a = proc ()\n  tagcase b\n    tag c (d: int):\n    tag e (f:\n    ): end\nend a",
            5,
        ),
        (
            "a = proc ()\n  for i: int in\n    int$from_to(1,\n    2\n    3) do end\nend a",
            5,
        ),
        ("a = proc ()\n  x := maybe f() at 1\n  y := 2\nend a", 3),
        ("a = proc ()\n  b\n\n  := 1 c\nend a", 5),
    ];
    for &(text, line) in &TABLE {
        assert!(rt;
            failing_line(&rt, rt.alloc(), text.as_bytes()) == line,
            "{text}"
        );
    }
}
