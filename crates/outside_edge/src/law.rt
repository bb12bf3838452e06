//! The laws of puts, as what a call ensures that does nothing.

ghost use Rattle.outside_edge.specs.Laws.{RowLaws};

/// What a sink tells over puts in a row, where it tells: texts that are written one behind another are one text, the
/// same with a last one that is cut short or only begun, and what was cut short is more than the room at the start.
///
/// A caller gets the laws by a call, which does nothing.
pub fn puts_in_a_row()
    ensures { RowLaws }
{}
