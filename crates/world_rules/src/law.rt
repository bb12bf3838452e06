//! The laws, each as what a call ensures that does nothing.

ghost use Rattle.clu_tree.specs.declared.program.Program.{Program};
ghost use Rattle.world_rules.specs.Laws.{ClockLaw, CutLaws, ErasingLaws, FollowingLaws};
ghost use Rattle.world_rules.specs.Laws.{KnowingLaw, LaggingClockLaw, PlainLaw};

/// The laws of the list without the debugger.
pub fn erasing_laws()
    ensures { (program : Program) → ErasingLaws program }
{}

/// The laws of a list with one more entry.
pub fn following_laws()
    ensures { (program : Program) → FollowingLaws program }
{}

/// A list of turns, packets and ticks alone is run by the machine without debugger as it stands.
pub fn plain_law()
    ensures { (program : Program) → PlainLaw program }
{}

/// The laws of logical time.
pub fn cut_laws()
    ensures { (program : Program) → CutLaws program }
{}

/// A clock that keeps a total and an opening reads the cut at each time that no closing is after.
pub fn clock_law()
    ensures { ClockLaw }
{}

/// A node's clock that was told all but an open opening reads the cut of the list at each reading that isn't above
/// that opening.
pub fn lagging_clock_law()
    ensures { LaggingClockLaw }
{}

/// After each entry that meets its conditions a node's clock still knows the list, if it was told all before its node
/// resumed.
pub fn knowing_law()
    ensures { (program : Program) → KnowingLaw program }
{}
