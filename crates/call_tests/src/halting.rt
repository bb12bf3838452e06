//! Which nodes are halted, since when, and the packets that they hold back.

ghost use Rattle.std.specs.Prelude.{◌≡◌};

use halt_all::{Held, Rounds};
use std::alloc::Global;
use std::process::Abort;

#[derive(Clone, Copy, Debug)]
enum Step {
    Start(u64),
    Halted(u32),
    Finish(u64),
    Resumed(u32),
}

// Whether all of two nodes are halted after the step, and when the open round began.
fn stepped(rt: &impl Abort, alloc: Global, rounds: &mut Rounds, step: Step) -> (bool, Option<u64>)
    requires { rounds.old.nodes ≡ 2 }
    ensures { rounds.new.nodes ≡ 2 }
{
    match step {
        Step::Start(a) => {
            assert!(rt; rounds.begun_at().is_none());
            rounds.start(alloc, a).expect(rt, "memory");
        }
        Step::Halted(node) => {
            assert!(rt; rounds.begun_at().is_some() && 1 <= node && node <= 2);
            rounds.halted(node);
        }
        Step::Finish(b) => {
            assert!(rt; rounds.begun_at().is_some());
            rounds.finish(b);
        }
        Step::Resumed(node) => {
            assert!(rt; rounds.begun_at().is_none() && 1 <= node && node <= 2);
            rounds.resumed(node);
        }
    }
    (rounds.all_halted(), rounds.begun_at())
}

/// Two nodes through a long round, one that opens before a node has resumed and closes at once, and a third.
#[test]
fn tells_who_is_halted_and_since_when(rt: HostRuntime) {
    let none = Rounds::new(rt.alloc(), 0).expect(&rt, "memory");
    assert!(rt; none.all_halted(), "no node runs where there is none");
    let mut rounds = Rounds::new(rt.alloc(), 2).expect(&rt, "memory");
    assert!(rt; !rounds.all_halted(), "both nodes run at first");
    assert_eq!(rt; rounds.begun_at(), None);
    for (step, told) in [
        (Step::Start(10), (false, Some(10))),
        (Step::Halted(1), (false, Some(10))),
        (Step::Halted(2), (true, Some(10))),
        (Step::Finish(1010), (true, None)),
        (Step::Resumed(2), (false, None)),
        (Step::Start(1010), (false, Some(1010))),
        (Step::Halted(2), (true, Some(1010))),
        (Step::Finish(1010), (true, None)),
        (Step::Resumed(1), (false, None)),
        (Step::Resumed(2), (false, None)),
        (Step::Start(1011), (false, Some(1011))),
        (Step::Halted(2), (false, Some(1011))),
    ] {
        assert_eq!(rt;
            stepped(&rt, rt.alloc(), &mut rounds, step),
            told,
            "after {step:?}"
        );
    }
}

// What is handed out once these packets are held.
fn handed(
    rt: &impl Abort,
    alloc: Global,
    held: &mut Held,
    packets: &[(u32, u64)],
) -> Vec<(u32, u64)> {
    for &(from, index) in packets {
        held.push(alloc, from, index).expect(rt, "memory");
    }
    held.take_all()
}

/// Packets in the order in which they reached the node, copies among them, and twice the same as they are handed out.
#[test]
fn hands_out_all_packets_in_order_once(rt: HostRuntime) {
    let table: [&[(u32, u64)]; 5] = [
        &[],
        &[(1, 1), (1, 1)],
        &[
            (2, 7),
            (1, 3),
            (4_294_967_295, 4_611_686_018_427_387_904),
            (1, 2),
        ],
        &[],
        &[(3, 1)],
    ];
    let mut held = Held::new(rt.alloc()).expect(&rt, "memory");
    for packets in table {
        assert_eq!(rt;
            handed(&rt, rt.alloc(), &mut held, packets).as_slice(),
            packets
        );
        assert!(rt;
            held.take_all().is_empty(),
            "none is left after {packets:?}"
        );
    }
}
