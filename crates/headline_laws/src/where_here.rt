// Members of a history of many shards.

ghost use Rattle.headline_laws.specs.ReplayingHere.{SharesAreMaps, MembersReplayWhereHere};
ghost use Rattle.headline_laws.specs.RecoveringHere.{PredecessorsStandBeforeWhereHere};
ghost use Rattle.headline_laws.specs.SettlingHere.{SettledIsTheMapWhereReadersWroteNothing, SettledOpensClear};

/// Where logs may be opened, what a shard has of the map that they all stand for is what its own log commits, and what it leaves in doubt that
/// some log commits.
pub fn shares_are_maps()
    ensures { SharesAreMaps }
{}

/// In a legal history, whatever the logs found leave in doubt and whatever a crash keeps of what is in flight: where each member is here on each
/// shard, the members replay one after another, in the order of their requests, from the map that the logs found stand for to the map that the
/// logs left stand for, and give the answers that they were told.
pub fn members_replay_where_here()
    ensures { MembersReplayWhereHere }
{}

/// No member is left without one that it depends on: whose writes it violated on a shard where it is here is a member too, and stands before it,
/// or it was in doubt there in the log found, and some log found has its COMMIT.
pub fn predecessors_stand_before_where_here()
    ensures { PredecessorsStandBeforeWhereHere }
{}

/// Where a history is settled, and whom a shard voted read on wrote nothing there, the live records of the shards, one shard after another, are
/// the map that the logs left stand for.
pub fn settled_is_the_map_where_readers_wrote_nothing()
    ensures { SettledIsTheMapWhereReadersWroteNothing }
{}

/// Where a history is settled, nothing is in doubt in the logs left, whatever was in doubt in those found.
pub fn settled_opens_clear()
    ensures { SettledOpensClear }
{}
