//! What a list of calls can tell of a table.
ghost use Rattle.callers.specs.LockRuns.{TablesAnswerAlike};

/// Two tables with the same rows give the same answers to the same calls, and have the same rows afterwards; but where a call leaves it to the
/// table which lock goes.
pub fn tables_answer_alike()
    ensures { TablesAnswerAlike }
{}
