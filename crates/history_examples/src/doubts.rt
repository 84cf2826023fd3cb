// Three shards: a violated transaction that is prepared, and its violator, where one shard stops.

ghost use Rattle.history_examples.specs.InDoubt.{Prepared_lost, Prepared_found, Found_stands};

/// P, prepared at its home, is violated there by T, which is prepared there too; P's COMMIT is only buffered when the shard stops, so T's vote
/// was not due. Both are losers: P is aborted by the restart, T's reminded Prepare gets a no for its epoch, and the third shard, where P
/// voted yes, asks and is told the abort.
pub fn prepared_and_lost()
    ensures { Prepared_lost }
{}

/// The same, but P's COMMIT is flushed first: T votes yes, the shard restarts with T in doubt, P is acknowledged, and T commits on both shards.
pub fn prepared_and_found()
    ensures { Prepared_found }
{}

/// The logs of that run are in order, do not disagree, and stand for the live pairs.
pub fn found_logs_stand()
    ensures { Found_stands }
{}
