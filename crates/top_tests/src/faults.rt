//! What faults tell.

use clu_reader::{AcceptFault, CheckFault, ReadFault};
use journal_text::{JournalFault, LineFault};
use outside_edge::{LoadFault, PutFault};
use pilgrim_top::UsageFault;
use std::alloc::Global;
use std::fmt::Display;
use std::process::Abort;

fn tells<F: Display>(rt: &impl Abort, alloc: Global, fault: &F, text: &str) -> bool {
    format!(in alloc; "{fault}").expect(rt, "memory").as_str() == text
}

#[test]
fn faults_of_the_edge_tell_why(rt: HostRuntime) {
    let alloc = rt.alloc();
    for (fault, text) in [
        (LoadFault::Failed, "the file cannot be read"),
        (LoadFault::Memory, "out of memory"),
    ] {
        assert!(rt; tells(&rt, alloc, &fault, text), "{text}");
    }
    for (fault, text) in [
        (PutFault::Failed, "the bytes cannot be written"),
        (PutFault::Memory, "out of memory"),
    ] {
        assert!(rt; tells(&rt, alloc, &fault, text), "{text}");
    }
    for (fault, text) in [
        (
            UsageFault::Usage,
            "usage: check, replay, erase, load or run",
        ),
        (UsageFault::Memory, "out of memory"),
    ] {
        assert!(rt; tells(&rt, alloc, &fault, text), "{text}");
    }
}

#[test]
fn faults_of_readers_tell_why(rt: HostRuntime) {
    let alloc = rt.alloc();
    for (fault, text) in [
        (ReadFault::Syntax(7), "no program: line 7"),
        (ReadFault::Memory, "out of memory"),
    ] {
        assert!(rt; tells(&rt, alloc, &fault, text), "{text}");
    }
    for (fault, text) in [
        (AcceptFault::Refused(7), "program refused at line 7"),
        (AcceptFault::Memory, "out of memory"),
    ] {
        assert!(rt; tells(&rt, alloc, &fault, text), "{text}");
    }
    assert!(rt; tells(&rt, alloc, &CheckFault::NotTyped(7), "not typed: line 7"));
    for (fault, text) in [
        (LineFault::Bad, "not a line"),
        (LineFault::Memory, "out of memory"),
    ] {
        assert!(rt; tells(&rt, alloc, &fault, text), "{text}");
    }
    for (fault, text) in [
        (
            JournalFault::BadLine(7),
            "line 7 is not a line of a journal",
        ),
        (JournalFault::Memory, "out of memory"),
    ] {
        assert!(rt; tells(&rt, alloc, &fault, text), "{text}");
    }
}
