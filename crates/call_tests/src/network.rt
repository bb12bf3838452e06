//! The network that loses and repeats packets.

use lossy_net::{Net, fate};

/// A word, a loss and a repetition, and the copies that arrive.
#[test]
fn draws_none_two_or_one(rt: HostRuntime) {
    for (word, loss, repeat, copies) in [
        (49_099, 100, 50, 0),
        (49_100, 100, 50, 2),
        (51_100, 100, 50, 1),
        (50_100, 100, 50, 1),
        (0, 0, 0, 1),
        (0, 0, 1, 2),
        (0, 1, 1, 0),
        (999_999, 1000, 1000, 0),
        (999_999, 999, 1000, 2),
        (999_999, 999, 999, 1),
        (4_294_967_295, 295, 968, 2),
        (4_294_967_295, 295, 967, 1),
        (4_294_967_295, 296, 968, 0),
    ] {
        assert_eq!(rt;
            fate(word, loss, repeat),
            copies,
            "word {word}, loss {loss}, repeat {repeat}"
        );
    }
}

// What is offered to the node, which takes it, and whether nothing was left before.
fn delivered(net: &mut Net, node: u32) -> (bool, Option<(u32, u64)>) {
    let was_empty = net.is_empty();
    let offered = net.offer(node);
    if let Some((from, index)) = offered {
        net.take(node, from, index);
    }
    (was_empty, offered)
}

/// Copies of four packets, and what is offered to a node and taken, in turn, until nothing is left.
#[test]
fn offers_each_copy_once_by_sender_and_place(rt: HostRuntime) {
    let mut net = Net::new(rt.alloc()).expect(&rt, "memory");
    assert!(rt; net.is_empty(), "nothing is on its way at first");
    net.sent(rt.alloc(), 2, 3, 1, 1).expect(&rt, "memory");
    net.sent(rt.alloc(), 2, 1, 7, 2).expect(&rt, "memory");
    net.sent(rt.alloc(), 1, 1, 7, 1).expect(&rt, "memory");
    net.sent(rt.alloc(), 2, 1, 2, 0).expect(&rt, "memory");
    for (node, packet) in [
        (2, Some((1, 7))),
        (2, Some((1, 7))),
        (2, Some((3, 1))),
        (2, None),
        (3, None),
        (1, Some((1, 7))),
    ] {
        assert_eq!(rt;
            delivered(&mut net, node),
            (false, packet),
            "to node {node}"
        );
    }
    assert!(rt; net.is_empty(), "nothing is left");
}
