// What the COMMIT of a transaction that touched several shards, and its END, say of its parts.

ghost use Rattle.headline_laws.specs.Ended.{EndedAreCommitted};
ghost use Rattle.headline_laws.specs.Voters.{PartsAreTheYesVoters};

/// Where a crash leaves an END of a transaction beside its COMMIT, each shard that the COMMIT names has a COMMIT of it left.
pub fn ended_are_committed()
    ensures { EndedAreCommitted }
{}

/// The parts that a COMMIT left at its home names are the other touched shards that voted yes; those that it doesn't name voted read.
pub fn parts_are_the_yes_voters()
    ensures { PartsAreTheYesVoters }
{}
