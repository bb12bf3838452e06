//! What faults tell.

use turn_book::Memory;

/// The text of want of memory.
#[test]
fn want_of_memory_tells_so(rt: HostRuntime) {
    let text = format!(in rt.alloc(); "{}", Memory).expect(&rt, "memory");
    assert_eq!(rt; text.as_str(), "out of memory");
}
