// Which transactions may be tried again.
ghost use Rattle.session_ops.specs.Laws.{EndedAreRetriable, ActiveAreRetriable, AbortsAreRetriable};

/// One that ended by an abort and has no part any more.
pub fn ended_are_retriable<M, S, G>()
    ensures { EndedAreRetriable M S G }
{}

/// One that is active still, as an abort leaves it that touched nothing.
pub fn active_are_retriable<M, S, G>()
    ensures { ActiveAreRetriable M S G }
{}

/// One whose parts were all dropped, as an abort does.
pub fn aborts_are_retriable<M, S, G>()
    ensures { AbortsAreRetriable M S G }
{}
