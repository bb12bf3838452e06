//! Long texts.

use crate::reading::{failing_statement, repeated};

#[test]
fn reads_long_texts(rt: HostRuntime) {
    static TABLE: [(&str, &str, usize, &str, u32); 9] = [
        ("x := ", "(", 2000, "1", 2),
        ("x := a", "+a", 2000, "", 2),
        ("", "f()\n", 2000, "return", 0),
        ("f(1", ", 1", 2000, ")", 0),
        ("x: record[a: int", ", b: int", 2000, "]", 0),
        ("", "(", 2000, "", 2),
        ("", "begin ", 2000, "", 2),
        ("", "a ", 2000, "", 2),
        ("x := ", "9", 18, "", 0),
    ];
    for &(before, piece, times, behind, line) in &TABLE {
        let text = repeated(&rt, rt.alloc(), before, piece, times, behind);
        let failing = failing_statement(&rt, rt.alloc(), text.as_str());
        assert!(rt; failing == line, "{times} times {piece}");
    }
}

#[test]
fn reads_many_brackets(rt: HostRuntime) {
    let opened = repeated(&rt, rt.alloc(), "x := ", "(", 2000, "1");
    let closed = repeated(&rt, rt.alloc(), opened.as_str(), ")", 2000, "");
    assert!(rt; failing_statement(&rt, rt.alloc(), closed.as_str()) == 0);
}
