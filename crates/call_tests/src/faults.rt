//! What faults tell.

use numbered_calls::StartFault;
use packet_wire::WireFault;
use std::alloc::Global;
use std::fmt::Display;
use std::process::Abort;

fn tells<F: Display>(rt: &impl Abort, alloc: Global, fault: &F, text: &str) -> bool {
    format!(in alloc; "{fault}").expect(rt, "memory").as_str() == text
}

/// The text of each fault.
#[test]
fn faults_tell_why(rt: HostRuntime) {
    assert!(rt; tells(&rt, rt.alloc(), &StartFault::Full, "no number is left"));
    assert!(rt; tells(&rt, rt.alloc(), &StartFault::Memory, "out of memory"));
    assert!(rt;
        tells(
            &rt,
            rt.alloc(),
            &WireFault::Bad,
            "no packet has these bytes"
        )
    );
    assert!(rt; tells(&rt, rt.alloc(), &WireFault::Memory, "out of memory"));
}
