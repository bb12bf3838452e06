//! Calls that are made as often as their packet comes, or never.

use rpc_maybe::MaybeClient;
use std::alloc::Global;
use std::process::Abort;

#[derive(Clone, Copy, Debug)]
enum Act {
    /// The server and the routine.
    Start(u32, u16),
    Reply(u64),
    Expire(u64),
}

/// Number, server and routine of the pending call at a place.
type Pending = Option<(u64, u32, u16)>;

// The number that is given, or 1 and 0 for whether a call ended; then the first three pending calls.
fn acted(
    rt: &impl Abort,
    alloc: Global,
    client: &mut MaybeClient,
    act: Act,
) -> (u64, [Pending; 3]) {
    let answer = match act {
        Act::Start(to, routine) => client.start(alloc, to, routine).expect(rt, "a number"),
        Act::Reply(seq) => u64::from(client.reply(seq)),
        Act::Expire(seq) => u64::from(client.expire(seq)),
    };
    (answer, [client.at(0), client.at(1), client.at(2)])
}

/// A call is answered or expires, once.
#[test]
fn calls_end_once(rt: HostRuntime) {
    let mut client = MaybeClient::new(rt.alloc()).expect(&rt, "memory");
    for (act, answer, pending) in [
        (Act::Start(2, 5), 1, [Some((1, 2, 5)), None, None]),
        (
            Act::Start(3, 6),
            2,
            [Some((1, 2, 5)), Some((2, 3, 6)), None],
        ),
        (Act::Reply(1), 1, [Some((2, 3, 6)), None, None]),
        (Act::Expire(1), 0, [Some((2, 3, 6)), None, None]),
        (Act::Expire(2), 1, [None, None, None]),
        (Act::Reply(2), 0, [None, None, None]),
        (Act::Start(3, 6), 3, [Some((3, 3, 6)), None, None]),
    ] {
        assert_eq!(rt;
            acted(&rt, rt.alloc(), &mut client, act),
            (answer, pending),
            "{act:?}"
        );
    }
}
