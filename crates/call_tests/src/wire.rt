//! Packets on the wire.

use packet_wire::{Packet, WireFault, read, write};
use std::alloc::Global;
use std::process::Abort;

/// The first call of a program that adds 2 and 3 at node 2, and its answer.
const CALL: [u8; 39] = [
    1, 1, 2, 0, 0, 0, 0, 0, 0, 0, 1, 0, 0, 0, 0, 0, 0, 0, 1, 0, 0, 0, 16, 0, 0, 0, 0, 0, 0, 0, 2,
    0, 0, 0, 0, 0, 0, 0, 3,
];

const REPLY: [u8; 22] = [
    2, 2, 1, 0, 0, 0, 0, 0, 0, 0, 1, 0, 0, 8, 0, 0, 0, 0, 0, 0, 0, 5,
];

// What is read of the bytes, written again.
fn again(rt: &impl Abort, alloc: Global, bytes: &[u8]) -> Vec<u8> {
    let packet = read(alloc, bytes).expect(rt, "a packet");
    write(alloc, &packet).expect(rt, "memory")
}

/// Packets of each kind, with the least and the greatest of their parts, are read and written again.
#[test]
fn packets(rt: HostRuntime) {
    let table: [(&str, &[u8]); 6] = [
        ("the call", &CALL),
        ("the reply", &REPLY),
        (
            "a maybe-call without arguments, of the last routine",
            &[
                3, 8, 1, 255, 255, 255, 255, 255, 255, 255, 255, 255, 255, 0, 0,
            ],
        ),
        (
            "a maybe-reply that raises without a value",
            &[4, 1, 8, 0, 0, 0, 0, 0, 0, 0, 1, 1, 1, 120, 0],
        ),
        (
            "a maybe-reply that raises with a value",
            &[4, 1, 8, 0, 0, 0, 0, 0, 0, 0, 1, 1, 1, 120, 1, 0, 1, 0],
        ),
        (
            "a reply with an empty value",
            &[2, 1, 1, 0, 0, 0, 0, 0, 0, 0, 9, 0, 0, 0],
        ),
    ];
    for (name, bytes) in table {
        assert_eq!(rt; again(&rt, rt.alloc(), bytes).as_slice(), bytes, "{name}");
    }
}

/// The parts of the worked call.
#[test]
fn parts(rt: HostRuntime) {
    let Packet::Call {
        from,
        to,
        seq,
        floor,
        routine,
        args,
    } = read(rt.alloc(), &CALL).expect(&rt, "a packet")
    else {
        panic!(rt; "not a call")
    };
    assert_eq!(rt; (from, to, seq, floor, routine), (1, 2, 1, 1, 0));
    assert_eq!(rt; args.as_slice(), &CALL[23..]);
}

fn is_bad(alloc: Global, bytes: &[u8]) -> bool {
    matches!(read(alloc, bytes), Err(WireFault::Bad))
}

/// Bytes that spell no packet.
#[test]
fn bad(rt: HostRuntime) {
    let table: [(&str, &[u8]); 14] = [
        ("nothing", &[]),
        ("no kind", &[5]),
        ("kind 0", &[0, 1, 2, 0, 0, 0, 0, 0, 0, 0, 1, 0, 0, 0]),
        ("a call that ends early", &CALL[..38]),
        ("node 0", &[2, 0, 1, 0, 0, 0, 0, 0, 0, 0, 1, 0, 0, 0]),
        ("node 9", &[2, 1, 9, 0, 0, 0, 0, 0, 0, 0, 1, 0, 0, 0]),
        ("number 0", &[2, 1, 1, 0, 0, 0, 0, 0, 0, 0, 0, 0, 0, 0]),
        (
            "more behind",
            &[2, 1, 1, 0, 0, 0, 0, 0, 0, 0, 1, 0, 0, 0, 0],
        ),
        ("outcome 2", &[2, 1, 1, 0, 0, 0, 0, 0, 0, 0, 1, 2, 0, 0]),
        ("no name", &[2, 1, 1, 0, 0, 0, 0, 0, 0, 0, 1, 1, 0, 0]),
        ("flag 2", &[2, 1, 1, 0, 0, 0, 0, 0, 0, 0, 1, 1, 1, 120, 2]),
        (
            "a value of 16,385 bytes",
            &[2, 1, 1, 0, 0, 0, 0, 0, 0, 0, 1, 0, 64, 1],
        ),
        (
            "floor 0",
            &[
                1, 1, 1, 0, 0, 0, 0, 0, 0, 0, 1, 0, 0, 0, 0, 0, 0, 0, 0, 0, 0, 0, 0,
            ],
        ),
        (
            "floor 2 of call 1",
            &[
                1, 1, 1, 0, 0, 0, 0, 0, 0, 0, 1, 0, 0, 0, 0, 0, 0, 0, 2, 0, 0, 0, 0,
            ],
        ),
    ];
    for (name, bytes) in table {
        assert!(rt; is_bad(rt.alloc(), bytes), "{name}");
    }
}
