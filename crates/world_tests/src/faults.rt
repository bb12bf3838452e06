use debug_world::WorldFault;
use node_core::NodeFault;
use process_table::AddFault;
use std::alloc::Global;
use std::fmt::Display;

/// Whether the text of a fault is this one.
fn says<D: Display>(alloc: Global, fault: &D, text: &str) -> bool {
    match format!(in alloc; "{fault}") {
        Ok(shown) => shown.as_str() == text,
        Err(_) => false,
    }
}

#[test]
fn faults_say_what_happened(rt: HostRuntime) {
    let alloc = rt.alloc();
    let memory = "out of memory";
    assert!(rt; says(alloc, &AddFault::Full, "no more processes can be added"));
    assert!(rt; says(alloc, &AddFault::Memory, memory));
    assert!(rt; says(alloc, &NodeFault::Illegal, "the event isn't possible"));
    assert!(rt; says(alloc, &NodeFault::Memory, memory));
    assert!(rt;
        says(
            alloc,
            &WorldFault::Illegal(22),
            "condition 22 of an entry fails"
        )
    );
    assert!(rt; says(alloc, &WorldFault::Memory, memory));
}
