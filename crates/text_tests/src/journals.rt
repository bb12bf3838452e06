//! Whole journals.

use journal_text::{JournalFault, read_journal};
use std::alloc::Global;
use std::process::Abort;

/// How many lines a journal has, or the number of the first bad one.
fn lines_of(rt: &impl Abort, alloc: Global, text: &[u8]) -> Result<usize, u32> {
    match read_journal(alloc, text) {
        Ok(lines) => Ok(lines.len()),
        Err(JournalFault::BadLine(number)) => Err(number),
        Err(JournalFault::Memory) => panic!(rt; "memory ran out"),
    }
}

/// The same of a line so many times.
fn lines_of_many(rt: &impl Abort, alloc: Global, times: u32) -> Result<usize, u32> {
    let mut text = Vec::new(alloc);
    for _ in 0..times {
        text.extend_from_slice(b"0 turn 1 1 0\n")
            .expect(rt, "memory");
    }
    lines_of(rt, alloc, text.as_slice())
}

#[test]
fn reads_a_journal_or_names_its_first_bad_line(rt: HostRuntime) {
    static TABLE: [(&[u8], Result<usize, u32>); 12] = [
        (b"", Ok(0)),
        (b"0 turn 1 64 0\n", Ok(1)),
        (b"0 haltall\n0 halt 1\n5 resumeall\n", Ok(3)),
        (b"0 turn 1 64 0\n100 tick 1\n100 turn 2 1 100\n", Ok(3)),
        (b"0 turn 1 64 0", Err(1)),
        (b"0 turn 1 64 0\n0 turn 1 64 0", Err(2)),
        (b"0 tick 1\n0 quit\n0 tick", Err(3)),
        (b"0 tick 1\n0 tick 1 1\n", Err(2)),
        (b"\n", Err(1)),
        (b"0 turn 1 64 0\n\n", Err(2)),
        (b"0 turn 1 64 0\n\n0 turn 1 65 0\n", Err(2)),
        (b"0 turn 1 65 0\n0 turn 1 64 0\n", Err(1)),
    ];
    for &(text, wanted) in &TABLE {
        assert!(rt; lines_of(&rt, rt.alloc(), text) == wanted, "{text:?}");
    }
}

#[test]
fn a_journal_has_a_million_lines(rt: HostRuntime) {
    assert!(rt; lines_of_many(&rt, rt.alloc(), 1_000_000) == Ok(1_000_000));
}

#[test]
fn a_journal_has_no_more_lines(rt: HostRuntime) {
    assert!(rt; lines_of_many(&rt, rt.alloc(), 1_000_001) == Err(1_000_001));
}
