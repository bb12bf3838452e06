//! How runs of the top call end, what they write, and how many steps their turns take.

use crate::texts::{bytes_of, text_of};
use outside_edge::{MemShelf, MemSink};
use pilgrim_top::{Still, Usage, top_still, top_words};
use std::alloc::Global;
use std::process::Abort;
use world_types::Event;

const HELLO: &str = "hello = proc ()\n  put_line(\"hi\")\nend hello\nnode 1 is start hello() end\n";

const NAP: &str =
    "nap = proc ()\n  sleep(100)\n  put_line(\"up\")\nend nap\nnode 1 is start nap() end\n";

const NOBODY: &str = "node 1 is end\n";

/// A shelf with a program and a script, of which the loads with these numbers fail.
fn shelf_of(
    rt: &impl Abort,
    alloc: Global,
    program: &str,
    script: &str,
    failing: &[u64],
) -> MemShelf {
    let mut files = Vec::new(alloc);
    for (name, text) in [("program", program), ("script", script)] {
        let file = (text_of(rt, alloc, name), bytes_of(rt, alloc, text));
        files.push(file).expect(rt, "memory");
    }
    MemShelf::new(files, failing.to_vec(alloc).expect(rt, "memory"))
}

/// The words of a command line.
fn words_of(rt: &impl Abort, alloc: Global, words: &[&str]) -> Vec<String> {
    let mut all = Vec::new(alloc);
    for word in words {
        all.push(text_of(rt, alloc, word)).expect(rt, "memory");
    }
    all
}

/// The steps of the turns of a journal.
fn steps_of(rt: &impl Abort, alloc: Global, still: &Still) -> Vec<u32> {
    let mut all = Vec::new(alloc);
    for entry in &still.journal {
        if let Event::Turn { steps, .. } = &entry.event {
            all.push(*steps).expect(rt, "memory");
        }
    }
    all
}

/// A text so many times, between two others.
fn repeated(
    rt: &impl Abort,
    alloc: Global,
    before: &str,
    text: &str,
    times: u32,
    behind: &str,
) -> String {
    let mut all = text_of(rt, alloc, before);
    for _ in 0..times {
        all.push_str(text).expect(rt, "memory");
    }
    all.push_str(behind).expect(rt, "memory");
    all
}

/// What a replay is to give.
#[derive(Clone, Copy)]
struct Given<'a> {
    status: u8,
    written: &'a str,
    steps: &'a [u32],
}

/// Whether a program under a script gives that.
fn replays(rt: &impl Abort, alloc: Global, program: &str, script: &str, given: Given<'_>) -> bool {
    let mut shelf = shelf_of(rt, alloc, program, script, &[]);
    let mut sink = MemSink::new(alloc, None);
    let usage = Usage::Replay(text_of(rt, alloc, "program"), text_of(rt, alloc, "script"));
    let still = top_still(alloc, &usage, &mut shelf, &mut sink);
    still.status == given.status
        && sink.taken() == given.written.as_bytes()
        && steps_of(rt, alloc, &still).as_slice() == given.steps
}

#[test]
fn scripts_run_up_to_the_first_line_refused(rt: HostRuntime) {
    let first = "script refused at line 1\n";
    let second = "script refused at line 2\n";
    for (program, script, status, written, steps) in [
        (HELLO, "0 turn 1 64 0\n", 0, "1: hi\n", [4].as_slice()),
        (
            HELLO,
            "0 turn 1 3 0\n5 turn 1 1 2\n",
            0,
            "1: hi\n",
            [3, 1].as_slice(),
        ),
        (NOBODY, "", 0, "", [].as_slice()),
        (NOBODY, "0 turn 1 1 0\n", 6, first, [].as_slice()),
        (HELLO, "00 turn 1 64 0\n", 6, first, [].as_slice()),
        (HELLO, "0 turn 1 64 0", 6, first, [].as_slice()),
        (HELLO, "0 turn 1 65 0\n", 6, first, [].as_slice()),
        (HELLO, "0 turn 1 64 0\r\n", 6, first, [].as_slice()),
        (HELLO, "\u{feff}0 turn 1 64 0\n", 6, first, [].as_slice()),
        (HELLO, HELLO, 6, first, [].as_slice()),
        (
            HELLO,
            "0 turn 1 1 0\n0 turn 2 1 0\n",
            6,
            second,
            [1].as_slice(),
        ),
        (
            HELLO,
            "5 turn 1 1 0\n4 turn 1 1 0\n",
            6,
            second,
            [1].as_slice(),
        ),
        (HELLO, "5 turn 1 1 6\n", 6, first, [].as_slice()),
        (
            HELLO,
            "5 turn 1 1 5\n6 turn 1 1 4\n",
            6,
            second,
            [1].as_slice(),
        ),
        (
            HELLO,
            "0 turn 1 64 0\n0 turn 1 1 0\n",
            6,
            "1: hi\nscript refused at line 2\n",
            [4].as_slice(),
        ),
        // A line of the format whose event can't be run yet.
        (HELLO, "0 haltall\n", 6, first, [].as_slice()),
        (
            HELLO,
            "0 turn 1 64 0\n0 halt 1\n",
            6,
            "1: hi\nscript refused at line 2\n",
            [4].as_slice(),
        ),
        (
            "",
            "0 turn 1 64 0\n",
            2,
            "program refused at line 1\n",
            [].as_slice(),
        ),
        (
            "node 1 is start p() end\n",
            "",
            2,
            "program refused at line 1\n",
            [].as_slice(),
        ),
        (
            "0 turn 1 64 0\n",
            HELLO,
            2,
            "program refused at line 1\n",
            [].as_slice(),
        ),
        (
            "\u{feff}node 1 is end\n",
            "",
            2,
            "program refused at line 1\n",
            [].as_slice(),
        ),
    ] {
        let given = Given {
            status,
            written,
            steps,
        };
        assert!(rt;
            replays(&rt, rt.alloc(), program, script, given),
            "{program}{script}"
        );
    }
}

#[test]
fn sleepers_wake_at_their_limit(rt: HostRuntime) {
    let refused = "script refused at line 2\n";
    for (script, status, written, steps) in [
        (
            "0 turn 1 64 0\n100 tick 1\n100 turn 1 64 100\n",
            0,
            "1: up\n",
            [3, 4].as_slice(),
        ),
        // The limit counts from the turn's reading, not from its stamp.
        (
            "10 turn 1 64 5\n105 tick 1\n200 turn 1 64 105\n",
            0,
            "1: up\n",
            [3, 4].as_slice(),
        ),
        ("10 turn 1 64 5\n104 tick 1\n", 6, refused, [3].as_slice()),
        ("0 turn 1 64 0\n99 tick 1\n", 6, refused, [3].as_slice()),
        ("0 turn 1 64 0\n100 tick 2\n", 6, refused, [3].as_slice()),
        (
            "0 turn 1 64 0\n100 turn 1 64 100\n",
            6,
            refused,
            [3].as_slice(),
        ),
        (
            "0 turn 1 64 0\n50 turn 1 64 50\n",
            6,
            refused,
            [3].as_slice(),
        ),
        (
            "0 turn 1 64 0\n100 tick 1\n100 tick 1\n",
            6,
            "script refused at line 3\n",
            [3].as_slice(),
        ),
        ("0 tick 1\n", 6, "script refused at line 1\n", [].as_slice()),
    ] {
        let given = Given {
            status,
            written,
            steps,
        };
        assert!(rt; replays(&rt, rt.alloc(), NAP, script, given), "{script}");
    }
}

#[test]
fn turns_take_the_most_steps(rt: HostRuntime) {
    let alloc: Global = rt.alloc();
    let line = "  put_line(\"x\")\n";
    let program = repeated(
        &rt,
        alloc,
        "p = proc ()\n",
        line,
        22,
        "end p\nnode 1 is start p() end\n",
    );
    let written = repeated(&rt, alloc, "", "1: x\n", 22, "");
    let refused = repeated(&rt, alloc, "", "1: x\n", 22, "script refused at line 3\n");
    let long = repeated(&rt, alloc, "", " ", 1_048_577, "");
    let twice = "0 turn 1 64 0\n0 turn 1 64 0\n";
    let thrice = "0 turn 1 64 0\n0 turn 1 64 0\n0 turn 1 64 0\n";
    for (program, script, status, written, steps) in [
        (
            program.as_str(),
            twice,
            0,
            written.as_str(),
            [64, 3].as_slice(),
        ),
        (
            program.as_str(),
            thrice,
            6,
            refused.as_str(),
            [64, 3].as_slice(),
        ),
        (long.as_str(), "", 2, "program too long\n", [].as_slice()),
    ] {
        let given = Given {
            status,
            written,
            steps,
        };
        assert!(rt; replays(&rt, alloc, program, script, given), "{script}");
    }
}

/// What is written, and the status, of words over these files where the sink has so much room.
fn ends(
    rt: &impl Abort,
    alloc: Global,
    shelf: &mut MemShelf,
    words: &[&str],
    room: Option<u64>,
) -> (u8, Vec<u8>) {
    let mut sink = MemSink::new(alloc, room);
    let words = words_of(rt, alloc, words);
    let still = top_words(alloc, words.as_slice(), shelf, &mut sink);
    (
        still.status,
        sink.taken().to_vec(alloc).expect(rt, "memory"),
    )
}

#[test]
fn a_sink_takes_what_it_has_room_for(rt: HostRuntime) {
    let alloc: Global = rt.alloc();
    let script = "0 turn 1 64 0\n100 tick 1\n100 turn 1 64 100\n";
    for (room, status, written) in [
        (0, 4, ""),
        (1, 4, "1"),
        (2, 4, "1:"),
        (3, 4, "1: "),
        (4, 4, "1: u"),
        (5, 4, "1: up"),
        (6, 0, "1: up\n"),
    ] {
        let mut shelf = shelf_of(&rt, alloc, NAP, script, &[]);
        let words = ["replay", "program", "script"];
        let (ended, taken) = ends(&rt, alloc, &mut shelf, &words, Some(room));
        assert!(rt;
            ended == status && taken.as_slice() == written.as_bytes(),
            "{room}"
        );
    }
}

#[test]
fn faults_end_with_what_was_written_before(rt: HostRuntime) {
    let alloc: Global = rt.alloc();
    let usage = "usage: check, replay, erase, load or run\n";
    let replay = ["replay", "program", "script"].as_slice();
    for (words, failing, room, status, written) in [
        (replay, [].as_slice(), None, 0, "1: hi\n"),
        (replay, [].as_slice(), Some(6), 0, "1: hi\n"),
        (replay, [].as_slice(), Some(3), 4, "1: "),
        (replay, [1].as_slice(), None, 4, ""),
        (replay, [2].as_slice(), None, 4, ""),
        (
            ["replay", "program", "none"].as_slice(),
            [].as_slice(),
            None,
            4,
            "",
        ),
        (["run"].as_slice(), [].as_slice(), None, 1, usage),
        (
            ["replay", "program"].as_slice(),
            [].as_slice(),
            None,
            1,
            usage,
        ),
        (
            ["replay", "-program", "script"].as_slice(),
            [].as_slice(),
            None,
            1,
            usage,
        ),
        (
            ["check", "program"].as_slice(),
            [].as_slice(),
            None,
            1,
            usage,
        ),
        ([].as_slice(), [].as_slice(), Some(5), 4, "usage"),
    ] {
        let mut shelf = shelf_of(&rt, alloc, HELLO, "0 turn 1 64 0\n", failing);
        let (ended, taken) = ends(&rt, alloc, &mut shelf, words, room);
        assert!(rt;
            ended == status && taken.as_slice() == written.as_bytes(),
            "{words:?}"
        );
    }
}
