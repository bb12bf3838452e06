//! Locks and semaphores.

use node_sync::{Addr, EnterEnd, Lock, MAX_COUNT, NodeSync, Semaphore, SignalEnd, WaitEnd};
use std::alloc::Global;
use std::process::Abort;
use std::test::Fail;

/// Those that wait for a lock get it in the order in which they came.
#[test]
fn a_lock_goes_to_the_first_that_waits(rt: HostRuntime) -> Result<(), Fail> {
    let at = Addr(7);
    let mut sync = NodeSync::new(rt.alloc())?;
    sync.make_lock(rt.alloc(), at)?;
    assert_eq!(rt; sync.enter(rt.alloc(), at, 1)?, EnterEnd::Taken);
    assert_eq!(rt; sync.enter(rt.alloc(), at, 2)?, EnterEnd::Queued);
    assert_eq!(rt; sync.enter(rt.alloc(), at, 1)?, EnterEnd::HeldByCaller);
    assert_eq!(rt; sync.leave(at, 1), Some(2));
    Ok(())
}

/// Who gave up waiting isn't woken.
#[test]
fn a_signal_counts_where_nobody_waits(rt: HostRuntime) -> Result<(), Fail> {
    let at = Addr(9);
    let mut sync = NodeSync::new(rt.alloc())?;
    sync.make_sem(rt.alloc(), at, 0)?;
    assert_eq!(rt; sync.wait(rt.alloc(), at, 1)?, WaitEnd::Queued);
    assert!(rt; sync.cancel(at, 1));
    assert_eq!(rt; sync.signal(at), SignalEnd::Counted);
    Ok(())
}

#[derive(Clone, Copy, Debug)]
enum Act {
    Wait(u64),
    Signal,
    Cancel(u64),
}

#[derive(Clone, Copy, Debug, PartialEq, Eq)]
enum End {
    Wait(WaitEnd),
    Signal(SignalEnd),
    Cancel(bool),
}

fn acted(rt: &impl Abort, alloc: Global, semaphore: &mut Semaphore, act: Act) -> End {
    match act {
        Act::Wait(pid) => End::Wait(semaphore.wait(alloc, pid).expect(rt, "memory")),
        Act::Signal => End::Signal(semaphore.signal()),
        Act::Cancel(pid) => End::Cancel(semaphore.cancel(pid)),
    }
}

/// Each act on a semaphore of count 1, and its answer.
#[test]
fn a_semaphore_wakes_in_order(rt: HostRuntime) {
    let mut semaphore = Semaphore::new(rt.alloc(), 1);
    for (act, end) in [
        (Act::Wait(1), End::Wait(WaitEnd::Taken)),
        (Act::Wait(2), End::Wait(WaitEnd::Queued)),
        (Act::Wait(3), End::Wait(WaitEnd::Queued)),
        (Act::Wait(4), End::Wait(WaitEnd::Queued)),
        (Act::Cancel(3), End::Cancel(true)),
        (Act::Cancel(3), End::Cancel(false)),
        (Act::Signal, End::Signal(SignalEnd::Woke(2))),
        (Act::Signal, End::Signal(SignalEnd::Woke(4))),
        (Act::Signal, End::Signal(SignalEnd::Counted)),
        (Act::Cancel(2), End::Cancel(false)),
        (Act::Wait(2), End::Wait(WaitEnd::Taken)),
    ] {
        assert_eq!(rt; acted(&rt, rt.alloc(), &mut semaphore, act), end, "{act:?}");
    }
}

/// The count of a semaphore goes up to 2^62.
#[test]
fn a_semaphore_has_a_limit(rt: HostRuntime) {
    let mut semaphore = Semaphore::new(rt.alloc(), MAX_COUNT - 1);
    for (act, end) in [
        (Act::Signal, End::Signal(SignalEnd::Counted)),
        (Act::Signal, End::Signal(SignalEnd::AtLimit)),
        (Act::Wait(1), End::Wait(WaitEnd::Taken)),
        (Act::Signal, End::Signal(SignalEnd::Counted)),
    ] {
        assert_eq!(rt; acted(&rt, rt.alloc(), &mut semaphore, act), end, "{act:?}");
    }
}

/// A lock that its last holder left is free.
#[test]
fn a_lock_is_free_again(rt: HostRuntime) {
    let mut lock = Lock::new(rt.alloc());
    for pid in [5, 6] {
        let end = lock.enter(rt.alloc(), pid).expect(&rt, "memory");
        assert_eq!(rt; end, EnterEnd::Taken);
        assert_eq!(rt; lock.leave(), None);
    }
}
