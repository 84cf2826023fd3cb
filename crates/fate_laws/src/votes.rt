// What a vote binds.

ghost use Rattle.fate_laws.specs.Votes.{VotesBind, OthersAbortsSpareIt};

/// From a vote of yes on, the part is prepared by what is durable, with all its predecessors committed; from a vote of read on, it isn't there
/// any more, and has no PREPARE.
pub fn votes_bind()
    ensures { VotesBind }
{}

/// A part whose predecessors are all committed goes with no abort of another that isn't committed.
pub fn others_aborts_spare_it()
    ensures { OthersAbortsSpareIt }
{}
