// Laws of a log in order.

ghost use Rattle.protocol_laws.specs.Order.{NothingAfterCommit, NothingAfterPrepare, UndoneAreOpen, AbortedAreUncommitted, CommittedLieOnCommitted, RunsAreThoseOfRestarts, FrontsKeepOrder};

/// In a log in order no UPDATE, ADD, CLR or UNADD of a transaction stands behind its COMMIT.
pub fn nothing_after_commit()
    ensures { NothingAfterCommit }
{}

/// And no UPDATE, no ADD and no second PREPARE stands behind its PREPARE.
pub fn nothing_after_prepare()
    ensures { NothingAfterPrepare }
{}

/// Each CLR and UNADD is of a transaction that is aborted before it, or neither prepared nor committed before it.
pub fn undone_are_open()
    ensures { UndoneAreOpen }
{}

/// No transaction is aborted and committed.
pub fn aborted_are_uncommitted()
    ensures { AbortedAreUncommitted }
{}

/// Below a committed transaction's standing UPDATE those of its key are of committed ones.
pub fn committed_lie_on_committed()
    ensures { CommittedLieOnCommitted }
{}

/// Each record's transaction is of a run that a RESTART of the log names, or of an earlier one.
pub fn runs_are_those_of_restarts()
    ensures { RunsAreThoseOfRestarts }
{}

/// Each front of a log in order is in order: the rules hold at every length, and so in what a crash leaves.
pub fn fronts_keep_order()
    ensures { FrontsKeepOrder }
{}
