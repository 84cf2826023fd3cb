// Requests that are over at their homes.

ghost use Rattle.ended_laws.specs.Requests.{NobodyMissesIt, OverStaysOver, NothingMissesIt, SpentStaysSpent, FlushesMissNothing, SpentGoAlone};
ghost use Rattle.ended_laws.specs.Recalled.{SpentAreNotMissed};

/// Where a request is over, each event that may still come finds the same without its row: late votes, acknowledgements and questions, looks that
/// the log answers, reminders, and all that is of others.
pub fn nobody_misses_it()
    ensures { NobodyMissesIt }
{}

/// It stays over by each of these events.
pub fn over_stays_over()
    ensures { OverStaysOver }
{}

/// Where a request is over, its part here is finished, and the log answers looks at it, each event whatever finds the same without its row: so a shard
/// that keeps no such row answers whoever calls it as the definitions do.
pub fn nothing_misses_it()
    ensures { NothingMissesIt }
{}

/// It stays so by each event.
pub fn spent_stays_spent()
    ensures { SpentStaysSpent }
{}

/// The end of a flush misses no such row either, and leaves it so.
pub fn flushes_miss_nothing()
    ensures { FlushesMissNothing }
{}

/// Such rows are forgotten one by one.
pub fn spent_go_alone()
    ensures { SpentGoAlone }
{}

/// A shard that has forgotten any number of them makes the same of each call, and what it keeps is, with those rows, all that the definitions keep.
pub fn spent_are_not_missed()
    ensures { SpentAreNotMissed }
{}
