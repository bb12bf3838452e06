ghost use Rattle.std.specs.Prelude.{◌≡◌, List, ℕ};
ghost use Rattle.machine_rules.specs.declared.frame.Frame.{Frame};
ghost use Rattle.machine_rules.specs.Locks.{IsTakenIfFree, KeepsLocks, KeepsRaised};
ghost use Rattle.machine_rules.specs.Row.{World, give};
ghost use Rattle.machine_rules.specs.Frames.{held};
ghost use Rattle.clu_tree.specs.declared.value.Value.{Value};
ghost use Rattle.clu_tree.specs.declared.value.Sig.{Sig};
ghost use Rattle.clu_tree.specs.declared.program.Program.{Program};
ghost use Rattle.clu_tree.specs.Typed.{IsTyped};
ghost use Rattle.machine_rules.specs.Typing.{IsNeverStuck};
ghost use Rattle.machine_rules.specs.Picking.{InOrder, PicksNext};
ghost use Rattle.machine_rules.specs.declared.status.Status.{Status};

/// A process of a typed program is never stuck. A caller gets the law by a call, which does nothing.
pub fn never_stuck()
    ensures { (p : Program) → IsTyped p → IsNeverStuck p }
{}

/// Each step keeps account of the locks that its process holds: those held before are those given back and those still
/// held, and a lock that is entered wasn't held. So does an exception that the node raises, and a value that it gives
/// changes none. A step isn't taken only where some objects may not change.
pub fn locks_kept()
    ensures kept { (w : World) (frames : List Frame) → KeepsLocks w frames }
    ensures raised { (w : World) (s : Sig) (frames : List Frame) → KeepsRaised w s frames }
    ensures given { (v : Value) (frames : List Frame) → held (give v frames) ≡ held frames }
    ensures taken { (w : World) (frames : List Frame) → IsTakenIfFree w frames }
{}

/// Among processes in the order of their numbers, the number that is picked is whose turn it is.
pub fn picking_law()
    ensures { (last : ℕ) (processes : List (ℕ × Status)) → InOrder processes → PicksNext last processes }
{}
