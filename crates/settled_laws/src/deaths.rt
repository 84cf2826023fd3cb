// Why transactions die behind a settled beginning.

ghost use Rattle.settled_laws.specs.Deaths.{AbortsAreDeaths};

/// In a legal history in which each shard began settled and none is restarted, each operation or request that died, and each look that found
/// an abort, was told that an older transaction was in its way.
pub fn aborts_are_deaths()
    ensures { AbortsAreDeaths }
{}
