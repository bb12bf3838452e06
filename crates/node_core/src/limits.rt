//! The time limits of a node.

ghost use Rattle.std.specs.Prelude.{◌≡◌, [], IfOk, OnOk};
ghost use Rattle.node_core.specs.Expiry.{after, expiry_of};
ghost use Rattle.node_core.specs.Seen.{queue_of};

use crate::turn::PROCESS;
use std::alloc::{AllocError, Global};
use timer_queue::{Owner, TimerQueue};
use world_types::{Effects, Mark};

/// Adds the limit of the only process, if it sleeps.
pub fn add_limit(
    alloc: Global,
    limits: &mut TimerQueue,
    asleep: Option<u64>,
) -> Result<(), AllocError>
    requires { limits.old ≡ [] }
    ensures { OnOk result (limits.new ≡ queue_of asleep) }
{
    match asleep {
        Some(limit) => limits.add(alloc, limit, Owner::Process(PROCESS)),
        None => Ok(()),
    }
}

/// Takes out the limits at or before the time, in ms, and answers what their expiry did.
pub fn expire(alloc: Global, limits: &mut TimerQueue, t: u64) -> Result<Effects, AllocError>
    ensures left { OnOk result (limits.new ≡ after t limits.old) }
    ensures effects { IfOk result (λ effects. effects ≡ expiry_of t limits.old) }
{
    let mut effects = Effects::nothing(alloc);
    while let Some((_, owner)) = limits.pop_due(t) {
        effects.marks.push(Mark::Expired(owner))?;
    }
    Ok(effects)
}
