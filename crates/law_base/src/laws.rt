// What an abort leaves of a log.

ghost use Rattle.law_base.specs.Undone.{UndoLeavesTheOthers};

/// After the ABORTs and CLRs of a set exactly the UPDATEs of the others stand, in the same order.
pub fn undo_leaves_the_others()
    ensures { UndoLeavesTheOthers }
{}
