// A transaction that dies as its shard was restarted, and two drops.

ghost use Rattle.history_examples.specs.Dropped.{DroppedIsLegal, DroppedHasCause, DroppedHasNoMember};

/// An operation comes with the epoch from before the restart and dies; its session drops the other part; another session drops its transaction.
/// The history is legal.
pub fn dropped_is_legal()
    ensures { DroppedIsLegal }
{}

/// The operation is told that the shard was restarted, and it was.
pub fn dropped_has_cause()
    ensures { DroppedHasCause }
{}

/// Both transactions are aborted, the second by its drop alone, and nothing is left of them.
pub fn dropped_has_no_member()
    ensures { DroppedHasNoMember }
{}
