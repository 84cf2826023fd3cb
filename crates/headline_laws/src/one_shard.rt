// Laws of every legal history of one shard.

ghost use Rattle.headline_laws.specs.Replaying.{MembersReplay};
ghost use Rattle.headline_laws.specs.OneShardRecovering.{PredecessorsStandBefore};
ghost use Rattle.headline_laws.specs.OneShardSettling.{SettledIsTheMap};
ghost use Rattle.headline_laws.specs.Doubting.{NothingInDoubt};

/// In every legal history of one shard, from any log that may be opened: the members replay, in the order of their requests and from the map
/// that the log found stands for, to the answers that they were given, and to the map that the log left stands for, whatever a crash keeps of
/// what is in flight.
pub fn members_replay()
    ensures { MembersReplay }
{}

/// From such a log no member is left without one that it depends on: whose writes it violated is a member too, and stands before it.
pub fn predecessors_stand_before()
    ensures { PredecessorsStandBefore }
{}

/// Where the shard is up, nothing is buffered or in flight, and no part is undecided, the live records are that map.
pub fn settled_is_the_map()
    ensures { SettledIsTheMap }
{}

/// One shard has nothing in doubt: neither when it is opened, nor in what a crash leaves.
pub fn nothing_is_in_doubt()
    ensures { NothingInDoubt }
{}
