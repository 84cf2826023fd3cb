// Parts of members that never fell: those that are prepared, and those that voted yes.

ghost use Rattle.headline_laws.specs.Unfallen.{PreparedMembersNeverFell, YesVotersNeverFell, EarlierMembersNeverFell};
ghost use Rattle.headline_laws.specs.Readers.{OnlyReadersMayFall};
ghost use Rattle.headline_laws.specs.Voted.{MembersAreVotedFor};

/// Where a COMMIT is left on any shard, no part of its transaction that is prepared, on a shard that the request names, ever fell there.
pub fn prepared_members_never_fell()
    ensures { PreparedMembersNeverFell }
{}

/// Nor did one on a shard that voted yes on it.
pub fn yes_voters_never_fell()
    ensures { YesVotersNeverFell }
{}

/// Nor did one of a transaction of an earlier run whose COMMIT some log had at opening.
pub fn earlier_members_never_fell()
    ensures { EarlierMembersNeverFell }
{}

/// Each other shard that the request of a member names voted yes or read on it.
pub fn members_are_voted_for()
    ensures { MembersAreVotedFor }
{}

/// Of a member, only a part on a shard that voted read on it may ever have fallen.
pub fn only_readers_may_fall()
    ensures { OnlyReadersMayFall }
{}
