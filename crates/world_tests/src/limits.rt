use std::alloc::Global;
use timer_queue::{Owner, TimerQueue};

/// What is asked of a queue.
#[derive(Clone, Copy)]
enum Ask {
    /// A limit is added, where its owner has none.
    Add(u64, Owner),
    Limit(Owner),
    Remove(Owner),
    First,
    PopDue(u64),
}

/// Asks it, and answers the limit that was added, found, removed (at 0) or taken. None where there is none.
fn asked(alloc: Global, queue: &mut TimerQueue, ask: Ask) -> Option<(u64, Owner)> {
    match ask {
        Ask::Add(limit, owner) => {
            if queue.limit(owner).is_some() || queue.add(alloc, limit, owner).is_err() {
                return None;
            }
            Some((limit, owner))
        }
        Ask::Limit(owner) => queue.limit(owner).map(|limit| (limit, owner)),
        Ask::Remove(owner) => {
            if queue.remove(owner) {
                Some((0, owner))
            } else {
                None
            }
        }
        Ask::First => queue.first(),
        Ask::PopDue(t) => queue.pop_due(t),
    }
}

#[test]
fn limits_expire_in_order(rt: HostRuntime) {
    let alloc = rt.alloc();
    let mut queue = TimerQueue::new(alloc).expect(&rt, "a queue");
    let one = Owner::Process(1);
    let two = Owner::Process(2);
    let three = Owner::Process(3);
    let nine = Owner::Process(9);
    let once = Owner::Once(1);
    let maybe = Owner::Maybe(2);
    for (at, (ask, answer)) in [
        (Ask::First, None),
        (Ask::Add(100, one), Some((100, one))),
        (Ask::Add(100, once), Some((100, once))),
        (Ask::Add(50, maybe), Some((50, maybe))),
        (Ask::Add(100, nine), Some((100, nine))),
        (Ask::Add(100, Owner::Maybe(1)), Some((100, Owner::Maybe(1)))),
        (Ask::Add(100, three), Some((100, three))),
        (Ask::Add(101, two), Some((101, two))),
        (Ask::Limit(three), Some((100, three))),
        (Ask::Limit(Owner::Once(3)), None),
        (Ask::Remove(Owner::Once(3)), None),
        (Ask::Remove(nine), Some((0, nine))),
        (Ask::Remove(three), Some((0, three))),
        (Ask::Remove(three), None),
        (Ask::Remove(Owner::Maybe(1)), Some((0, Owner::Maybe(1)))),
        (Ask::First, Some((50, maybe))),
        (Ask::PopDue(49), None),
        (Ask::PopDue(100), Some((50, maybe))),
        (Ask::PopDue(100), Some((100, one))),
        (Ask::PopDue(100), Some((100, once))),
        (Ask::PopDue(100), None),
        (Ask::PopDue(101), Some((101, two))),
        (Ask::PopDue(u64::MAX), None),
    ]
    .into_iter()
    .enumerate()
    {
        assert!(rt; asked(alloc, &mut queue, ask) == answer, "at {at}");
    }
}
