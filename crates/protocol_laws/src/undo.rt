// The set that goes with an aborted transaction.

ghost use Rattle.protocol_laws.specs.UndoLaws.{DoomedIsClosure};

/// The doomed set of a transaction holds it and each successor of each of its members, and it is the least such set.
pub fn doomed_set_is_closed()
    ensures { DoomedIsClosure }
{}
