//! The lines at which a node stops.

use breakpoint_set::Marks;
use std::alloc::Global;
use std::process::Abort;

#[derive(Clone, Copy, Debug)]
enum Edit {
    Set(u32),
    Clear(u32),
}

// After the edit, 1 for each that is marked of the lines 0, 1, 2, 3, 4, 1,048,576 and the last.
fn edited(rt: &impl Abort, alloc: Global, marks: &mut Marks, edit: Edit) -> [bool; 7] {
    match edit {
        Edit::Set(line) => marks.set(alloc, line).expect(rt, "memory"),
        Edit::Clear(line) => marks.clear(line),
    }
    [
        marks.marked(0),
        marks.marked(1),
        marks.marked(2),
        marks.marked(3),
        marks.marked(4),
        marks.marked(1_048_576),
        marks.marked(u32::MAX),
    ]
}

/// Each edit, and the lines that are marked after it.
#[test]
fn marks_the_lines_that_were_set_last(rt: HostRuntime) {
    let mut marks = Marks::new(rt.alloc()).expect(&rt, "memory");
    assert!(rt; !marks.marked(3), "nothing is marked at first");
    for (edit, lines) in [
        (Edit::Set(3), [0, 0, 0, 1, 0, 0, 0]),
        (Edit::Set(1_048_576), [0, 0, 0, 1, 0, 1, 0]),
        (Edit::Set(3), [0, 0, 0, 1, 0, 1, 0]),
        (Edit::Set(1), [0, 1, 0, 1, 0, 1, 0]),
        (Edit::Clear(2), [0, 1, 0, 1, 0, 1, 0]),
        (Edit::Clear(3), [0, 1, 0, 0, 0, 1, 0]),
        (Edit::Clear(3), [0, 1, 0, 0, 0, 1, 0]),
        (Edit::Set(3), [0, 1, 0, 1, 0, 1, 0]),
        (Edit::Clear(1), [0, 0, 0, 1, 0, 1, 0]),
    ] {
        let marked = edited(&rt, rt.alloc(), &mut marks, edit).map(|is_marked| u8::from(is_marked));
        assert_eq!(rt; marked, lines, "after {edit:?}");
    }
}
