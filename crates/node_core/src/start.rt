//! The process that a node starts.

ghost use Rattle.std.specs.Prelude.{◌≡◌, ◌≤◌, [], Some, IfOk, length, slice_get};
ghost use Rattle.std.specs.Option.{option_map};
ghost use Rattle.clu_tree.specs.Typed.{IsTyped};
ghost use Rattle.world_rules.specs.Node.{routine_named};
ghost use Rattle.node_core.specs.Seen.{IsRunning, StartsAs};

use clu_eval::Process;
use clu_tree::{NodePart, Program, Routine, Text};
use machine_rules::never_stuck;
use std::alloc::{AllocError, Global};

/// The number of the first of these routines that has the name.
fn place_of(routines: &[Routine], name: &Text) -> Option<u16>
    requires { length routines.now ≤ 10000 }
    ensures { result ≡ option_map (λ found. found.0) (routine_named name.now 0 routines.now) }
{
    for (place, routine) in routines.iter().enumerate() {
        if name.as_slice() == routine.name.as_slice() {
            return Some(place as u16);
        }
    }
    None
}

/// The process that the node block starts, if it starts one.
pub fn started(alloc: Global, program: &Program) -> Result<Option<Process>, AllocError>
    requires { IsTyped program.now }
    ensures { IfOk result (λ process. StartsAs program.now process × IsRunning program.now process) }
{
    never_stuck();
    let Some(block) = program.nodes.get(0) else {
        unreachable!();
    };
    match block.parts.get(0) {
        None => Ok(None),
        Some(NodePart::Export { .. }) => unreachable!(),
        Some(NodePart::Start { name, .. }) => {
            let Some(place) = place_of(program.routines.as_slice(), name) else {
                unreachable!();
            };
            let process = Process::new(alloc, program, place, Vec::new(alloc))?;
            Ok(Some(process))
        }
    }
}
