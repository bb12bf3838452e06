//! That each line has one spelling, and that numbers go to their bounds.

use crate::lines::is_refused;
use journal_text::{read_journal, write_journal};
use std::alloc::Global;
use std::process::Abort;

/// Whether a text is read, and is what is written of what it is read as.
fn is_written_back(rt: &impl Abort, alloc: Global, text: &str) -> bool {
    let lines = read_journal(alloc, text.as_bytes()).expect(rt, "a journal");
    write_journal(alloc, lines.as_slice())
        .expect(rt, "memory")
        .as_slice()
        == text.as_bytes()
}

/// Each line of the format. A 5 is nothing but the stamp.
static LINES: [&str; 22] = [
    "5 turn 1 64 0\n",
    "5 packet 2 1 3\n",
    "5 tick 1\n",
    "5 stop 1\n",
    "5 halt 2\n",
    "5 resume 8\n",
    "5 ask 1 ps\n",
    "5 ask 1 where 2\n",
    "5 ask 1 caller once 7\n",
    "5 ask 1 caller maybe 7\n",
    "5 ask 1 vars 2\n",
    "5 ask 1 print 3 x\n",
    "5 ask 1 calls\n",
    "5 ask 1 time\n",
    "5 answer 1\n",
    "5 set 1 9\n",
    "5 clear 1 9\n",
    "5 haltall\n",
    "5 resumeall\n",
    "5 resumeall 0\n",
    "5 say node\n",
    "5 quit\n",
];

/// What is no spelling of a line: other blanks than one space between words, and zeros before a number.
static CHANGES: [(u8, &[u8]); 13] = [
    (b'5', b"05"),
    (b'5', b" 5"),
    (b'5', b"\t5"),
    (b'5', b"+5"),
    (b' ', b" 0"),
    (b' ', b"  "),
    (b' ', b"\t"),
    (b' ', b"\r"),
    (b' ', b""),
    (b'\n', b" \n"),
    (b'\n', b"\t\n"),
    (b'\n', b"\r\n"),
    (b'\n', b""),
];

/// The line, with other bytes in place of the one at a place.
fn changed(rt: &impl Abort, alloc: Global, line: &[u8], place: usize, instead: &[u8]) -> Vec<u8> {
    let (before, rest) = line.split_at(place.min(line.len()));
    let mut text = Vec::from_slice(alloc, before).expect(rt, "memory");
    text.extend_from_slice(instead).expect(rt, "memory");
    if let [_, behind @ ..] = rest {
        text.extend_from_slice(behind).expect(rt, "memory");
    }
    text
}

/// Whether the line is refused with other bytes in place of this one, wherever it has it.
fn refuses_change(rt: &impl Abort, alloc: Global, line: &[u8], byte: u8, instead: &[u8]) -> bool {
    for (at, b) in line.iter().enumerate() {
        if *b == byte && !is_refused(alloc, changed(rt, alloc, line, at, instead).as_slice()) {
            return false;
        }
    }
    true
}

/// Whether the line is refused under each of the changes.
fn refuses_changes(rt: &impl Abort, alloc: Global, line: &str) -> bool {
    for &(byte, instead) in &CHANGES {
        if !refuses_change(rt, alloc, line.as_bytes(), byte, instead) {
            return false;
        }
    }
    true
}

#[test]
fn each_line_has_one_spelling(rt: HostRuntime) {
    for &line in &LINES {
        assert!(rt; is_written_back(&rt, rt.alloc(), line), "{line}");
        assert!(rt; refuses_changes(&rt, rt.alloc(), line), "{line}");
    }
}

/// Where a number stands: what is before, the least and the greatest, and what is behind.
type Place = (&'static str, u64, u64, &'static str);

static PLACES: [Place; 23] = [
    ("", 0, 4611686018427387903, " quit"),
    ("5 turn ", 0, 4294967295, " 1 0"),
    ("5 turn 1 ", 1, 64, " 0"),
    ("5 turn 1 1 ", 0, 4611686018427387903, ""),
    ("5 packet ", 0, 4294967295, " 1 0"),
    ("5 packet 1 ", 0, 4294967295, " 0"),
    ("5 packet 1 1 ", 0, 4611686018427387903, ""),
    ("5 tick ", 0, 4294967295, ""),
    ("5 stop ", 0, 4294967295, ""),
    ("5 halt ", 0, 4294967295, ""),
    ("5 resume ", 0, 4294967295, ""),
    ("5 ask ", 0, 4294967295, " ps"),
    ("5 ask 1 where ", 0, 4611686018427387904, ""),
    ("5 ask 1 caller once ", 0, 4611686018427387904, ""),
    ("5 ask 1 caller maybe ", 0, 4611686018427387904, ""),
    ("5 ask 1 vars ", 0, 4611686018427387904, ""),
    ("5 ask 1 print ", 0, 4611686018427387904, " x"),
    ("5 answer ", 0, 4294967295, ""),
    ("5 set ", 0, 4294967295, " 1"),
    ("5 set 1 ", 1, 1048576, ""),
    ("5 clear ", 0, 4294967295, " 1"),
    ("5 clear 1 ", 1, 1048576, ""),
    ("5 resumeall ", 0, 4611686018427387903, ""),
];

/// The line with this number there.
fn numbered(rt: &impl Abort, alloc: Global, place: Place, number: u64) -> String {
    let (before, _, _, behind) = place;
    format!(in alloc; "{before}{number}{behind}\n").expect(rt, "memory")
}

/// Whether the least and the greatest number are read and written there.
fn takes_bounds(rt: &impl Abort, alloc: Global, place: Place) -> bool {
    is_written_back(rt, alloc, numbered(rt, alloc, place, place.1).as_str())
        && is_written_back(rt, alloc, numbered(rt, alloc, place, place.2).as_str())
}

/// Whether there is no line with the number.
fn is_out(rt: &impl Abort, alloc: Global, place: Place, number: u64) -> bool {
    is_refused(alloc, numbered(rt, alloc, place, number).as_bytes())
}

#[test]
fn numbers_go_to_their_bounds(rt: HostRuntime) {
    for &place in &PLACES {
        let (before, least, greatest, _) = place;
        assert!(rt; takes_bounds(&rt, rt.alloc(), place), "behind {before}");
        assert!(rt;
            is_out(&rt, rt.alloc(), place, greatest.saturating_add(1)),
            "behind {before}"
        );
        assert!(rt;
            least == 0 || is_out(&rt, rt.alloc(), place, least.saturating_sub(1)),
            "behind {before}"
        );
    }
}
