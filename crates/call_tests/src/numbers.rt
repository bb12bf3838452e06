//! The numbers of calls.

use numbered_calls::NumberedCalls;
use std::alloc::Global;
use std::process::Abort;

#[derive(Clone, Copy, Debug)]
enum Act {
    Start,
    /// The call of this number ends.
    End(u64),
}

// The number of the pending call at this place, 0 where there is none. Each asks for routine 5 of server 2, with a 7.
fn number_at(rt: &impl Abort, calls: &NumberedCalls<u16>, place: usize) -> u64 {
    let Some((seq, to, routine)) = calls.at(place) else {
        return 0;
    };
    assert_eq!(rt; (to, routine), (2, 5), "at {place}");
    assert_eq!(rt; calls.get(seq).map(|call| call.args), Some(7), "of {seq}");
    seq
}

// The number that is given, or 1 and 0 for whether a call ended; then the floor, and the pending numbers in order.
fn acted(
    rt: &impl Abort,
    alloc: Global,
    calls: &mut NumberedCalls<u16>,
    act: Act,
) -> (u64, u64, [u64; 4]) {
    let answer = match act {
        Act::Start => calls.start(alloc, 2, 5, 7).expect(rt, "a number"),
        Act::End(seq) => u64::from(calls.end(seq)),
    };
    let pending = [
        number_at(rt, calls, 0),
        number_at(rt, calls, 1),
        number_at(rt, calls, 2),
        number_at(rt, calls, 3),
    ];
    (answer, calls.floor(), pending)
}

/// Each act and its answer, and then the floor and the pending numbers in order.
#[test]
fn calls_are_numbered(rt: HostRuntime) {
    let mut calls: NumberedCalls<u16> = NumberedCalls::new(rt.alloc());
    assert_eq!(rt; calls.floor(), 1);
    for (act, answer, floor, pending) in [
        (Act::Start, 1, 1, [1, 0, 0, 0]),
        (Act::Start, 2, 1, [1, 2, 0, 0]),
        (Act::Start, 3, 1, [1, 2, 3, 0]),
        (Act::End(2), 1, 1, [1, 3, 0, 0]),
        (Act::End(2), 0, 1, [1, 3, 0, 0]),
        (Act::End(1), 1, 3, [3, 0, 0, 0]),
        (Act::End(3), 1, 4, [0, 0, 0, 0]),
        (Act::End(4), 0, 4, [0, 0, 0, 0]),
        (Act::Start, 4, 4, [4, 0, 0, 0]),
    ] {
        assert_eq!(rt;
            acted(&rt, rt.alloc(), &mut calls, act),
            (answer, floor, pending),
            "{act:?}"
        );
    }
}
