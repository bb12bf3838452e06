//! Lines of scripts and journals: what they are read as, and which are none.

use journal_text::{LineFault, first_line, read_journal, write_journal};
use std::alloc::Global;
use std::process::Abort;

/// The stamp and the event of a line, where the line is what is written of them.
fn both_ways(rt: &impl Abort, alloc: Global, text: &str) -> String {
    let lines = read_journal(alloc, text.as_bytes()).expect(rt, "a journal");
    let written = write_journal(alloc, lines.as_slice()).expect(rt, "memory");
    assert!(rt; written.as_slice() == text.as_bytes(), "written otherwise");
    match lines.as_slice() {
        [told] => format!(in alloc; "{} {:?}", told.stamp, told.event).expect(rt, "memory"),
        _ => String::new(alloc),
    }
}

#[test]
fn events_are_read_and_written(rt: HostRuntime) {
    static TABLE: [(&str, &str); 23] = [
        (
            "0 turn 1 64 0\n",
            "0 Turn { node: 1, steps: 64, reading: 0 }",
        ),
        (
            "10 turn 0 1 9\n",
            "10 Turn { node: 0, steps: 1, reading: 9 }",
        ),
        (
            "4611686018427387903 turn 4294967295 64 4611686018427387903\n",
            "4611686018427387903 Turn { node: 4294967295, steps: 64, reading: 4611686018427387903 }",
        ),
        (
            "1000000000000000000 turn 1000000000 10 999999999999999999\n",
            "1000000000000000000 Turn { node: 1000000000, steps: 10, reading: 999999999999999999 }",
        ),
        (
            "7 packet 2 1 3\n",
            "7 Packet { node: 2, from: 1, index: 3 }",
        ),
        (
            "0 packet 0 4294967295 4611686018427387903\n",
            "0 Packet { node: 0, from: 4294967295, index: 4611686018427387903 }",
        ),
        ("100 tick 1\n", "100 Tick { node: 1 }"),
        (
            "4611686018427387903 tick 4294967295\n",
            "4611686018427387903 Tick { node: 4294967295 }",
        ),
        ("3 stop 1\n", "3 Stop { node: 1 }"),
        ("3 halt 2\n", "3 Halt { node: 2 }"),
        ("3 resume 8\n", "3 Resume { node: 8 }"),
        ("5 answer 1\n", "5 Answer { node: 1 }"),
        ("5 set 1 1\n", "5 Set { node: 1, line: 1 }"),
        ("5 set 1 1048576\n", "5 Set { node: 1, line: 1048576 }"),
        ("5 clear 1 70\n", "5 Clear { node: 1, line: 70 }"),
        ("6 haltall\n", "6 HaltAll"),
        ("6 resumeall\n", "6 ResumeAll { until: None }"),
        ("6 resumeall 0\n", "6 ResumeAll { until: Some(0) }"),
        (
            "6 resumeall 4611686018427387903\n",
            "6 ResumeAll { until: Some(4611686018427387903) }",
        ),
        ("6 say unknown\n", "6 Say { word: Unknown }"),
        ("6 say node\n", "6 Say { word: NoNode }"),
        ("6 say changes\n", "6 Say { word: Changes }"),
        ("6 quit\n", "6 Quit"),
    ];
    for &(text, event) in &TABLE {
        assert!(rt;
            both_ways(&rt, rt.alloc(), text).as_str() == event,
            "{text}"
        );
    }
}

#[test]
fn questions_are_read_and_written(rt: HostRuntime) {
    static TABLE: [(&str, &str); 11] = [
        ("5 ask 1 ps\n", "5 Ask { node: 1, question: Ps }"),
        (
            "5 ask 1 where 0\n",
            "5 Ask { node: 1, question: Trace { process: 0 } }",
        ),
        (
            "5 ask 1 where 4611686018427387904\n",
            "5 Ask { node: 1, question: Trace { process: 4611686018427387904 } }",
        ),
        (
            "5 ask 2 caller once 7\n",
            "5 Ask { node: 2, question: Caller { kind: Once, seq: 7 } }",
        ),
        (
            "5 ask 2 caller maybe 4611686018427387904\n",
            "5 Ask { node: 2, question: Caller { kind: Maybe, seq: 4611686018427387904 } }",
        ),
        (
            "5 ask 1 vars 12\n",
            "5 Ask { node: 1, question: Vars { process: 12 } }",
        ),
        (
            "5 ask 1 print 3 x\n",
            "5 Ask { node: 1, question: Print { process: 3, name: ByteString { bytes: [120] } } }",
        ),
        (
            "5 ask 1 print 3 a_9_\n",
            "5 Ask { node: 1, question: Print { process: 3, name: ByteString { bytes: [97, 95, 57, 95] } } }",
        ),
        (
            "5 ask 1 print 3 end\n",
            "5 Ask { node: 1, question: Print { process: 3, name: ByteString { bytes: [101, 110, 100] } } }",
        ),
        ("5 ask 1 calls\n", "5 Ask { node: 1, question: Calls }"),
        ("5 ask 1 time\n", "5 Ask { node: 1, question: Time }"),
    ];
    for &(text, event) in &TABLE {
        assert!(rt;
            both_ways(&rt, rt.alloc(), text).as_str() == event,
            "{text}"
        );
    }
}

/// Whether no line is at the front.
pub fn is_refused(alloc: Global, text: &[u8]) -> bool {
    match first_line(alloc, text) {
        Ok(_) => false,
        Err(fault) => fault == LineFault::Bad,
    }
}

#[test]
fn refuses_other_blanks_and_ends(rt: HostRuntime) {
    static TABLE: [&[u8]; 24] = [
        b"",
        b"\n",
        b"0 turn 1 64 0",
        b"0 quit",
        b"0 turn 1 64 0\r\n",
        b"0 quit\r\n",
        b"0 turn 1 64 0\xff\n",
        b" 0 turn 1 64 0\n",
        b"0 turn 1 64 0 \n",
        b"0 quit \n",
        b"0\tturn 1 64 0\n",
        b"0 turn\t1 64 0\n",
        b"0 turn 1\t64 0\n",
        b"0 tick 1\t\n",
        b"0  turn 1 64 0\n",
        b"0 turn  1 64 0\n",
        b"0 tick1\n",
        b"0quit\n",
        b"0 ask 1\tps\n",
        b"0 ask 1 print 3  x\n",
        b"0 resumeall \n",
        b"0 resumeall  1\n",
        b"0 resumeall\t1\n",
        b"0 say  node\n",
    ];
    for &text in &TABLE {
        assert!(rt; is_refused(rt.alloc(), text), "{text:?}");
    }
}

#[test]
fn refuses_more_words_and_fewer(rt: HostRuntime) {
    static TABLE: [&[u8]; 24] = [
        b"0\n",
        b"turn 1 64 0\n",
        b"quit\n",
        b"0 turn\n",
        b"0 turn 1 64\n",
        b"0 turn 1 64 0 0\n",
        b"0 packet 1 2\n",
        b"0 tick\n",
        b"0 tick 1 0\n",
        b"0 ask\n",
        b"0 ask 1\n",
        b"0 ask ps\n",
        b"0 ask 1 ps 1\n",
        b"0 ask 1 where\n",
        b"0 ask 1 caller 1\n",
        b"0 ask 1 caller once\n",
        b"0 ask 1 print 3\n",
        b"0 ask 1 print x\n",
        b"0 set 1\n",
        b"0 haltall 1\n",
        b"0 resumeall 1 2\n",
        b"0 say\n",
        b"0 say unknown command\n",
        b"0 quit 0\n",
    ];
    for &text in &TABLE {
        assert!(rt; is_refused(rt.alloc(), text), "{text:?}");
    }
}

#[test]
fn refuses_other_numbers(rt: HostRuntime) {
    static TABLE: [&[u8]; 26] = [
        b"00 turn 1 64 0\n",
        b"0 turn 01 64 0\n",
        b"0 turn 1 064 0\n",
        b"0 turn 1 64 00\n",
        b"0 tick 01\n",
        b"0 resumeall 01\n",
        b"+0 turn 1 64 0\n",
        b"0 turn 1 64 -1\n",
        b"0 turn 1 6x 0\n",
        b"0 turn 1 6/ 0\n",
        b"0 turn 1 6: 0\n",
        b"0 turn 1 0 0\n",
        b"0 turn 1 65 0\n",
        b"0 turn 1 100 0\n",
        b"4611686018427387904 turn 1 64 0\n",
        b"18446744073709551616 turn 1 64 0\n",
        b"0 turn 1 64 4611686018427387904\n",
        b"0 turn 4294967296 64 0\n",
        b"0 tick 4294967296\n",
        b"0 packet 1 4294967296 0\n",
        b"0 packet 1 2 4611686018427387904\n",
        b"0 ask 1 where 4611686018427387905\n",
        b"0 ask 1 caller once 4611686018427387905\n",
        b"0 set 1 0\n",
        b"0 set 1 1048577\n",
        b"0 resumeall 4611686018427387904\n",
    ];
    for &text in &TABLE {
        assert!(rt; is_refused(rt.alloc(), text), "{text:?}");
    }
}

#[test]
fn refuses_other_words_and_names(rt: HostRuntime) {
    static TABLE: [&[u8]; 25] = [
        b"0 1\n",
        b"0 trun 1 64 0\n",
        b"0 turns 1 64 0\n",
        b"0 Turn 1 64 0\n",
        b"0 tic 1\n",
        b"0 halt all\n",
        b"0 haltal 1\n",
        b"0 haltalls\n",
        b"0 halt\n",
        b"0 resume all\n",
        b"0 resumeal\n",
        b"0 ps\n",
        b"0 once 1\n",
        b"0 unknown\n",
        b"0 ask 1 quit\n",
        b"0 ask 1 node\n",
        b"0 ask 1 caller twice 1\n",
        b"0 say no\n",
        b"0 say quit\n",
        b"0 ask 1 print 3 X\n",
        b"0 ask 1 print 3 9x\n",
        b"0 ask 1 print 3 _x\n",
        b"0 ask 1 print 3 xY\n",
        b"0 ask 1 print 3 x-y\n",
        b"0 ask 1 print 3 \n",
    ];
    for &text in &TABLE {
        assert!(rt; is_refused(rt.alloc(), text), "{text:?}");
    }
}

/// Whether a question for the variable is a line, where its name has so many bytes.
fn is_named(rt: &impl Abort, alloc: Global, len: usize) -> bool {
    let mut text = Vec::from_slice(alloc, b"0 ask 1 print 3 ").expect(rt, "memory");
    for _ in 0..len {
        text.push(b'z').expect(rt, "memory");
    }
    text.push(b'\n').expect(rt, "memory");
    first_line(alloc, text.as_slice()).is_ok()
}

#[test]
fn names_have_64_bytes_at_most(rt: HostRuntime) {
    static TABLE: [(usize, bool); 5] = [
        (0, false),
        (1, true),
        (64, true),
        (65, false),
        (1000, false),
    ];
    for &(len, is_line) in &TABLE {
        assert!(rt; is_named(&rt, rt.alloc(), len) == is_line, "of {len}");
    }
}

/// Whether these bytes stand behind the first line.
fn leaves(rt: &impl Abort, alloc: Global, text: &[u8], rest: &[u8]) -> bool {
    first_line(alloc, text).expect(rt, "a line").rest == rest
}

#[test]
fn leaves_what_stands_behind_a_line(rt: HostRuntime) {
    static TABLE: [(&[u8], &[u8]); 5] = [
        (b"0 turn 1 64 0\n", b""),
        (b"0 quit\n", b""),
        (b"0 turn 1 64 0\n0 tick", b"0 tick"),
        (b"0 resumeall\n\n", b"\n"),
        (b"0 ask 1 print 3 x\n00", b"00"),
    ];
    for &(text, rest) in &TABLE {
        assert!(rt; leaves(&rt, rt.alloc(), text, rest), "{text:?}");
    }
}
