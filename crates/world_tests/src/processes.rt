use process_table::{AddFault, Addr, ProcessTable, Status};
use std::alloc::Global;

/// Adds so many processes, and answers the last one's number, or 0 where one couldn't be added.
fn added(alloc: Global, table: &mut ProcessTable, count: u32) -> u64 {
    let mut last = 0;
    for _ in 0..count {
        let Ok(pid) = table.add(alloc) else {
            return 0;
        };
        last = pid;
    }
    last
}

/// Remembers a process as the one picked last, where it is live, and answers whose turn it is.
fn after(table: &mut ProcessTable, last: u64) -> Option<u64> {
    if table.status(last).is_some() {
        table.picked(last);
    }
    table.pick()
}

/// Gives a process a status, where it is live, and answers its status and whose turn it is.
fn with(table: &mut ProcessTable, pid: u64, status: Status) -> (Option<Status>, Option<u64>) {
    if table.status(pid).is_some() {
        table.set_status(pid, status);
    }
    (table.status(pid), table.pick())
}

/// Ends a process, where it is live, and answers whether it is gone.
fn ended(table: &mut ProcessTable, pid: u64) -> bool {
    if table.status(pid).is_some() {
        table.end(pid);
        return table.status(pid).is_none();
    }
    false
}

#[test]
fn processes_take_turns(rt: HostRuntime) {
    let alloc = rt.alloc();
    let mut table = ProcessTable::new(alloc).expect(&rt, "a table");
    assert!(rt; table.pick().is_none());
    assert!(rt; added(alloc, &mut table, 3) == 3);
    for (last, next) in [(0, 1), (3, 1), (1, 2), (2, 3)] {
        assert!(rt; after(&mut table, last) == Some(next), "after {last}");
    }
    for (pid, status, next) in [
        (3, Status::Sleeping, Some(1)),
        (1, Status::InLock(Addr(7)), Some(2)),
        (2, Status::InSem(Addr(8)), None),
        (3, Status::InOnce(5), None),
        (1, Status::InMaybe(6), None),
        (1, Status::Ready, Some(1)),
        (3, Status::Ready, Some(3)),
    ] {
        assert!(rt;
            with(&mut table, pid, status) == (Some(status), next),
            "with {pid}"
        );
    }
    assert!(rt; ended(&mut table, 2));
    assert!(rt; added(alloc, &mut table, 1) == 4);
    for (place, pid) in [(0, Some(1)), (1, Some(3)), (2, Some(4)), (3, None)] {
        assert!(rt; table.at(place) == pid, "at {place}");
    }
}

#[test]
fn a_table_has_room_for_1024(rt: HostRuntime) {
    let alloc = rt.alloc();
    let mut table = ProcessTable::new(alloc).expect(&rt, "a table");
    assert!(rt; added(alloc, &mut table, 1024) == 1024);
    assert!(rt; matches!(table.add(alloc), Err(AddFault::Full)));
    assert!(rt; table.at(1023) == Some(1024));
    assert!(rt; table.at(1024).is_none());
    assert!(rt; ended(&mut table, 500));
    assert!(rt; added(alloc, &mut table, 1) == 1025);
    assert!(rt; matches!(table.add(alloc), Err(AddFault::Full)));
}
