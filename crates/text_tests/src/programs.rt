//! Whole programs.

use crate::reading::failing_line;
use clu_reader::no_text_has_two_trees;

/// Programs of many forms, as a user would write them.
static PROGRAMS: [(&str, &str); 14] = [
    (
        "hello",
        "hello = proc ()\n  put_line(\"hi\")\nend hello\nnode 1 is start hello() end",
    ),
    (
        "nap",
        "nap = proc ()\n  sleep(100)\n  put_line(\"up\")\nend nap\nnode 1 is start nap() end",
    ),
    (
        "add",
        "add = proc (a: int, b: int) returns (int)\n  return (a + b)\nend add\nmain1 = proc ()\n  x: int\n  x := once add(2, 3) at 2\n  put_line(int$unparse(x))\nend main1\nnode 1 is start main1() end\nnode 2 is export add end",
    ),
    (
        "two",
        "add = proc (a: int, b: int) returns (int)\n  return (a + b)\nend add\nmain1 = proc ()\n  x: int\n  for i: int in int$from_to(1, 2) do\n    x := once add(i, i) at 2\n    put_line(int$unparse(x))\n  end\nend main1\nnode 1 is start main1() end\nnode 2 is export add end",
    ),
    (
        "mb",
        "add = proc (a: int, b: int) returns (int)\n  return (a + b)\nend add\nmain1 = proc ()\n  begin\n    x: int := 0\n    x := maybe add(2, 3) at 2 within 100\n    put_line(int$unparse(x))\n  end except when no_answer:\n    put_line(\"none\")\n  end\nend main1\nnode 1 is start main1() end\nnode 2 is export add end",
    ),
    (
        "loop",
        "p = proc ()\n  for i: int in int$from_to(1, 3) do\n    put_line(int$unparse(i))\n  end\nend p\nnode 1 is start p() end",
    ),
    (
        "bag",
        "bag = cluster is make, print\n  rep = array[int]\n  make = proc () returns (cvt)\n    return (rep$new())\n  end make\n  print = proc (b: cvt) returns (string)\n    rep$addh(b, 1)\n    return (\"bag\")\n  end print\nend bag\np = proc ()\n  b: bag := bag$make()\n  sleep(10)\nend p\nnode 1 is start p() end",
    ),
    (
        "spin",
        "spin = cluster is make, print\n  rep = int\n  make = proc () returns (cvt)\n    return (0)\n  end make\n  print = proc (b: cvt) returns (string)\n    for i: int in int$from_to(1, 9993) do\n    end\n    return (\"x\")\n  end print\nend spin\np = proc ()\n  b: spin := spin$make()\n  sleep(10)\nend p\nnode 1 is start p() end",
    ),
    (
        "chain",
        "c3 = proc () returns (int)\n  sleep(1000)\n  return (1)\nend c3\nc2 = proc () returns (int)\n  x: int\n  x := once c3() at 3\n  return (x)\nend c2\nc1 = proc ()\n  x: int\n  x := once c2() at 2\nend c1\nnode 1 is start c1() end\nnode 2 is export c2 end\nnode 3 is export c3 end",
    ),
    (
        "nat",
        "nat = cluster is zero, next\n  rep = oneof[z: null, s: nat]\n  zero = proc () returns (cvt)\n    return (rep$make_z(nil))\n  end zero\n  next = proc (n: nat) returns (cvt)\n    return (rep$make_s(n))\n  end next\nend nat\ntaker = proc (n: nat)\nend taker\np = proc (k: int)\n  n: nat := nat$zero()\n  for i: int in int$from_to(1, k) do\n    n := nat$next(n)\n  end\n  once taker(n) at 1\n    except when failure (s: string): put_line(s) end\nend p\nnode 1 is export taker start p(62) end",
    ),
    (
        "arith",
        "p = proc ()\n  put_line(int$unparse(-7 / 2))\n  put_line(int$unparse(-7 // 2))\n  put_line(int$unparse((-9223372036854775807 - 1) / -1))\n    except when overflow: put_line(\"overflow\") end\n  a: array[int] := array[int]$[5, 6]\n  put_line(int$unparse(a[3]))\n    except when bounds: put_line(\"bounds\") end\nend p\nnode 1 is start p() end",
    ),
    (
        "bank",
        "acct = cluster is make, add, print\n  rep = record[sum: int]\n  make = proc (n: int) returns (cvt)\n    return (rep${sum: n})\n  end make\n  add = proc (a: cvt, n: int) returns (int)\n    a.sum := a.sum + n\n    return (a.sum)\n  end add\n  print = proc (a: cvt) returns (string)\n    return (\"sum \" || int$unparse(a.sum))\n  end print\nend acct\nnodevar guard: lock := lock$create()\nnodevar book: array[acct] := array[acct]$new()\nnodevar left: int := 2\nmove = proc (source: int, n: int)\n  region guard do\n    if array[acct]$size(book) = 0 then\n      array[acct]$addh(book, acct$make(100))\n      array[acct]$addh(book, acct$make(100))\n    end\n    acct$add(book[source], -n)\n    acct$add(book[3 - source], n)\n  end\nend move\nclose = proc ()\n  region guard do\n    left := left - 1\n    if left = 0 then\n      put_line(acct$print(book[1]) || \", \" || acct$print(book[2]))\n    end\n  end\nend close\nteller = proc (source: int, n: int)\n  for i: int in int$from_to(1, 10) do\n    once move(source, n) at 3\n  end\n  once close() at 3\nend teller\nnode 1 is start teller(1, 3) end\nnode 2 is start teller(2, 1) end\nnode 3 is export move export close end",
    ),
    (
        "sema",
        "nodevar s: semaphore := semaphore$create(0)\np = proc ()\n  if semaphore$wait_for(s, 50) then put_line(\"got\") else put_line(\"late\") end\nend p\nq = proc ()\n  sleep(20)\n  semaphore$signal(s)\nend q\nnode 1 is start p() start q() end",
    ),
    (
        "forks",
        "c = proc ()\n  sleep(1000000)\nend c\np = proc (n: int)\n  for i: int in int$from_to(1, n) do fork c() end\n    except when failure (s: string): put_line(s) end\nend p\nnode 1 is start p(1024) end",
    ),
];

#[test]
fn reads_whole_programs(rt: HostRuntime) {
    for &(name, text) in &PROGRAMS {
        assert!(rt;
            failing_line(&rt, rt.alloc(), text.as_bytes()) == 0,
            "{name}"
        );
    }
    no_text_has_two_trees();
}
