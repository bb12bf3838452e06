//! Files and places for bytes, in memory and of the system.

use crate::texts::{bytes_of, text_of};
use outside_edge::{FileShelf, LoadFault, MemShelf, MemSink, PutFault, Shelf, Sink, StdSink};
use std::alloc::Global;
use std::cell::RefCell;
use std::fmt::Display;
use std::process::Abort;
use std::{fs, io};

/// What a call answered.
#[derive(Clone, Copy, Debug, PartialEq, Eq)]
enum Answer {
    Done,
    /// A load gave other bytes than the file's.
    Other,
    Failed,
    Memory,
}

/// Loads the file of a name, which has this text where it is there.
fn load<S: Shelf>(alloc: Global, shelf: &mut S, name: &str, text: &str) -> Answer {
    match shelf.load(alloc, name) {
        Ok(bytes) if bytes.as_slice() == text.as_bytes() => Answer::Done,
        Ok(_) => Answer::Other,
        Err(LoadFault::Failed) => Answer::Failed,
        Err(LoadFault::Memory) => Answer::Memory,
    }
}

fn put<K: Sink>(sink: &mut K, piece: &str) -> Answer {
    match sink.put(piece.as_bytes()) {
        Ok(()) => Answer::Done,
        Err(PutFault::Failed) => Answer::Failed,
        Err(PutFault::Memory) => Answer::Memory,
    }
}

#[test]
fn a_shelf_in_memory_gives_its_files(rt: HostRuntime) {
    let alloc: Global = rt.alloc();
    let mut files = Vec::new(alloc);
    for (name, text) in [("a", "one"), ("empty", ""), ("a", "two")] {
        let file = (text_of(&rt, alloc, name), bytes_of(&rt, alloc, text));
        files.push(file).expect(&rt, "memory");
    }
    let failing = [2, 6].to_vec(alloc).expect(&rt, "memory");
    let mut shelf = MemShelf::new(files, failing);
    for (name, text, answer) in [
        ("a", "one", Answer::Done),
        ("a", "", Answer::Failed),
        ("a", "one", Answer::Done),
        ("b", "", Answer::Failed),
        ("empty", "", Answer::Done),
        ("b", "", Answer::Failed),
        ("", "", Answer::Failed),
        ("a", "one", Answer::Done),
    ] {
        assert_eq!(rt; load(alloc, &mut shelf, name, text), answer, "{name}");
    }
}

#[test]
fn a_shelf_of_the_system_gives_its_files(rt: HostRuntime) {
    let alloc: Global = rt.alloc();
    fs::write(&rt, "letters", "abc\n").expect(&rt, "a file");
    let path = fs::canonicalize(&rt, "letters").expect(&rt, "a path");
    let mut shelf = FileShelf::new(&rt);
    for (name, answer) in [
        ("letters", Answer::Done),
        ("missing", Answer::Failed),
        (".", Answer::Failed),
        ("./letters", Answer::Done),
        (path.as_str(), Answer::Done),
    ] {
        assert_eq!(rt; load(alloc, &mut shelf, name, "abc\n"), answer, "{name}");
    }
    fs::remove_file(&rt, "letters").expect(&rt, "the file");
    assert_eq!(rt; load(alloc, &mut shelf, "letters", "abc\n"), Answer::Failed);
}

#[test]
fn a_sink_in_memory_takes_what_has_room(rt: HostRuntime) {
    let alloc: Global = rt.alloc();
    let done = Answer::Done;
    let failed = Answer::Failed;
    for (room, pieces, answers, taken) in [
        (
            None,
            ["1: hi\n", "", "2: ho\n"],
            [done, done, done],
            "1: hi\n2: ho\n",
        ),
        (
            Some(6),
            ["1: hi\n", "", "2: ho\n"],
            [done, done, failed],
            "1: hi\n",
        ),
        (Some(3), ["1: hi\n", "2", ""], [failed, failed, done], "1: "),
        (
            Some(8),
            ["1: hi\n", "2: ho\n", "3"],
            [done, failed, failed],
            "1: hi\n2:",
        ),
        (Some(0), ["", "1", ""], [done, failed, done], ""),
    ] {
        let mut sink = MemSink::new(alloc, room);
        let [first, second, third] = pieces;
        let answered = [
            put(&mut sink, first),
            put(&mut sink, second),
            put(&mut sink, third),
        ];
        assert!(rt;
            answered == answers && sink.taken() == taken.as_bytes(),
            "{taken}"
        );
    }
}

/// An output that keeps its bytes.
#[derive(Drop)]
struct Kept {
    bytes: RefCell<Vec<u8>>,
}

fn no_text() -> io::Result<()> {
    Err(io::Error::from(io::ErrorKind::Unsupported))
}

impl Print for Kept {
    fn print<D: Display + Drop>(&self, _value: D) -> io::Result<()> {
        no_text()
    }

    fn println<D: Display + Drop>(&self, _value: D) -> io::Result<()> {
        no_text()
    }

    fn write_all(&self, bytes: &[u8]) -> io::Result<()> {
        match self.bytes.try_borrow_mut() {
            Ok(mut kept) => Ok(kept.extend_from_slice(bytes)?),
            Err(_) => no_text(),
        }
    }
}

/// An output that is closed.
#[derive(Drop)]
struct Closed;

fn broken_pipe() -> io::Result<()> {
    Err(io::Error::from(io::ErrorKind::BrokenPipe))
}

impl Print for Closed {
    fn print<D: Display + Drop>(&self, _value: D) -> io::Result<()> {
        broken_pipe()
    }

    fn println<D: Display + Drop>(&self, _value: D) -> io::Result<()> {
        broken_pipe()
    }

    fn write_all(&self, _bytes: &[u8]) -> io::Result<()> {
        broken_pipe()
    }
}

#[test]
fn the_standard_output_takes_every_byte(rt: HostRuntime) {
    let kept = Kept {
        bytes: RefCell::new(Vec::new(rt.alloc())),
    };
    let mut sink = StdSink::new(&kept);
    for piece in ["written\n", "", "more", "\n"] {
        assert_eq!(rt; put(&mut sink, piece), Answer::Done, "{piece}");
    }
    let bytes = kept.bytes.try_borrow().expect(&rt, "the bytes");
    assert!(rt; bytes.as_slice() == "written\nmore\n".as_bytes());
    assert_eq!(rt; put(&mut StdSink::new(&rt), "written\n"), Answer::Done);
    assert_eq!(rt; put(&mut StdSink::new(Closed), "lost\n"), Answer::Failed);
}
