//! Calls that are made exactly once: what the server does with them, and the packets by which they are sent.

use rpc_exactly_once::{Arrival, Bytes, OnceClient, OnceServer, Packet};
use std::alloc::Global;
use std::process::Abort;

#[derive(Clone, Copy, Debug)]
enum Act {
    /// A call of this number comes, with this floor. Where it is to begin, it does.
    Call(u64, u64),
    /// The call's body ends, with a reply of this one byte.
    End(u64, u8),
}

// What a byte says that is compared: what was done, or the reply.
const BEGUN: u8 = 200;

const NOTHING: u8 = 201;

const ENDED: u8 = 202;

const NOT_RUNNING: u8 = 203;

fn bytes(rt: &impl Abort, alloc: Global, byte: u8) -> Bytes {
    Bytes::from_slice(alloc, &[byte]).expect(rt, "memory")
}

fn first(bytes: &Bytes) -> u8 {
    bytes.as_slice().first().copied().unwrap_or(0)
}

fn called(
    rt: &impl Abort,
    alloc: Global,
    server: &mut OnceServer,
    client: u32,
    seq: u64,
    floor: u64,
) -> u8 {
    let arrival = server
        .arrive(alloc, client, seq, floor)
        .expect(rt, "memory");
    match arrival {
        Arrival::Begin => {
            server.begun(alloc, client, seq).expect(rt, "memory");
            BEGUN
        }
        Arrival::Resend(reply) => first(&reply),
        Arrival::Nothing => NOTHING,
    }
}

fn acted(rt: &impl Abort, alloc: Global, server: &mut OnceServer, client: u32, act: Act) -> u8 {
    match act {
        Act::Call(seq, floor) => called(rt, alloc, server, client, seq, floor),
        Act::End(seq, reply) => {
            let ended = server.done(alloc, client, seq, bytes(rt, alloc, reply));
            if ended.expect(rt, "memory") {
                ENDED
            } else {
                NOT_RUNNING
            }
        }
    }
}

/// What a server does with the calls of two clients.
#[test]
fn calls_come_again(rt: HostRuntime) {
    let table = [
        (1, Act::Call(1, 1), BEGUN),
        (1, Act::Call(1, 1), NOTHING),
        (1, Act::End(1, 7), ENDED),
        (1, Act::Call(1, 1), 7),
        (1, Act::Call(1, 1), 7),
        (1, Act::End(1, 8), NOT_RUNNING),
        (1, Act::Call(1, 1), 7),
        (1, Act::Call(2, 2), BEGUN),
        (1, Act::Call(1, 1), NOTHING),
        (1, Act::End(1, 8), NOT_RUNNING),
        // A floor that comes late doesn't lower the greatest one.
        (1, Act::Call(4, 2), BEGUN),
        (1, Act::Call(3, 1), BEGUN),
        (1, Act::End(3, 9), ENDED),
        (1, Act::Call(5, 3), BEGUN),
        (1, Act::Call(3, 2), 9),
        (1, Act::Call(2, 2), NOTHING),
        (1, Act::End(2, 6), NOT_RUNNING),
        // Another client's calls have the same numbers.
        (2, Act::End(5, 1), NOT_RUNNING),
        (2, Act::Call(1, 1), BEGUN),
        (2, Act::End(1, 5), ENDED),
        (2, Act::Call(1, 1), 5),
        (1, Act::Call(5, 3), NOTHING),
        (1, Act::End(5, 4), ENDED),
        (1, Act::Call(5, 5), 4),
        (1, Act::End(4, 4), NOT_RUNNING),
    ];
    let mut server = OnceServer::new(rt.alloc()).expect(&rt, "memory");
    for (step, (client, act, answer)) in table.into_iter().enumerate() {
        assert_eq!(rt;
            acted(&rt, rt.alloc(), &mut server, client, act),
            answer,
            "at {step}"
        );
    }
}

#[derive(Clone, Copy, Debug)]
enum Ask {
    /// The server, the routine and the one byte of arguments.
    Start(u32, u16, u8),
    Reply(u64),
}

/// Number, server, floor, routine and the one byte of arguments that a packet tells.
type Told = Option<(u64, u32, u64, u16, u8)>;

// What the packet of the pending call at this place tells.
fn told(rt: &impl Abort, alloc: Global, client: &OnceClient, place: usize) -> Told {
    let (seq, server, asked) = client.at(place)?;
    match client.packet(alloc, 8, seq).expect(rt, "memory") {
        Packet::Call {
            from: 8,
            to,
            seq,
            floor,
            routine,
            args,
        } if to == server && routine == asked => Some((seq, to, floor, routine, first(&args))),
        _ => None,
    }
}

// The number that is given, or 1 and 0 for whether a call ended; then the floor, and what the packets tell.
fn asked(
    rt: &impl Abort,
    alloc: Global,
    client: &mut OnceClient,
    ask: Ask,
) -> (u64, u64, [Told; 2]) {
    let answer = match ask {
        Ask::Start(to, routine, args) => {
            let begun = client.start(alloc, to, routine, bytes(rt, alloc, args));
            begun.expect(rt, "a number")
        }
        Ask::Reply(seq) => u64::from(client.reply(seq)),
    };
    (
        answer,
        client.floor(),
        [told(rt, alloc, client, 0), told(rt, alloc, client, 1)],
    )
}

/// A call is sent with the present floor until its answer comes.
#[test]
fn packets_tell_the_floor(rt: HostRuntime) {
    let mut client = OnceClient::new(rt.alloc()).expect(&rt, "memory");
    assert_eq!(rt; client.floor(), 1);
    for (ask, answer, floor, packets) in [
        (Ask::Start(2, 5, 40), 1, 1, [Some((1, 2, 1, 5, 40)), None]),
        (
            Ask::Start(3, 6, 41),
            2,
            1,
            [Some((1, 2, 1, 5, 40)), Some((2, 3, 1, 6, 41))],
        ),
        (Ask::Reply(1), 1, 2, [Some((2, 3, 2, 6, 41)), None]),
        (Ask::Reply(1), 0, 2, [Some((2, 3, 2, 6, 41)), None]),
        (Ask::Reply(2), 1, 3, [None, None]),
    ] {
        assert_eq!(rt;
            asked(&rt, rt.alloc(), &mut client, ask),
            (answer, floor, packets),
            "{ask:?}"
        );
    }
}
