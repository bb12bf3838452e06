//! One step of a node's process.

ghost use Rattle.std.specs.Prelude.{◌≡◌, ◌≢◌, ◌<◌, ◌^◌, [], Some, IfOk, OnOk};
ghost use Rattle.clu_tree.specs.Typed.{IsTyped};
ghost use Rattle.machine_rules.specs.Row.{bare_world, row};
ghost use Rattle.machine_rules.specs.Typing.{FramesFit};

use clu_eval::{Process, StepEnd};
use clu_tree::Program;
use machine_rules::never_stuck;
use obj_region::Region;
use std::alloc::{AllocError, Global};

/// Takes a step of a process that isn't over, at a node that has no objects and no variables. The programs that run so
/// far make none.
pub fn step(
    alloc: Global,
    program: &Program,
    time: u64,
    objects: &mut Region,
    process: &mut Process,
) -> Result<StepEnd, AllocError>
    requires typed { IsTyped program.now }
    requires early { time < 2 ^ 62 }
    requires none { objects.old ≡ [] }
    requires fits { FramesFit program.now process.old }
    requires goes_on { process.old ≢ [] }
    ensures row { IfOk result (λ end. row (bare_world program.now time) process.old ≡ Some (record {
      left = end.left;
      act = end.act;
      store = [];
      frames = process.new;
    })) }
    ensures fits { OnOk result (FramesFit program.now process.new) }
    ensures none { OnOk result (objects.new ≡ []) }
{
    never_stuck();
    process.step(alloc, program, objects, &[], time)
}
