// The headline over all shards: answers and map, recoverable, settled.

ghost use Rattle.headline_laws.specs.Found.{MembersAreFound, MembersReplay};
ghost use Rattle.headline_laws.specs.Recovering.{PredecessorsStandBefore};
ghost use Rattle.headline_laws.specs.Settling.{SettledIsTheMap};
ghost use Rattle.headline_laws.specs.Chaining.{MembersReplayToTheEnd};
ghost use Rattle.headline_laws.specs.Promise.{Promise};

/// On each shard a member has its COMMIT left; or it is in doubt there beside a COMMIT elsewhere, with all that its PREPARE lists committed; or it
/// asked, wrote nothing there, and left without falling.
pub fn members_are_found()
    ensures { MembersAreFound }
{}

/// The members replay one after another, in the order of their requests, from the map that the logs found stand for to the map that the logs left
/// stand for, and give the answers that they were told.
pub fn members_replay()
    ensures { MembersReplay }
{}

/// Whose write a member violated, on any shard, is a member at an earlier place, or it was in doubt there in the log found, and some log found has
/// its COMMIT.
pub fn predecessors_stand_before()
    ensures { PredecessorsStandBefore }
{}

/// Where nothing is left to do, the live records of all shards are the map that the logs left stand for.
pub fn settled_is_the_map()
    ensures { SettledIsTheMap }
{}

/// The members by what the next opening finds, failed restarts among it, replay to the map that it finds: so runs follow one another.
pub fn members_replay_to_the_end()
    ensures { MembersReplayToTheEnd }
{}

/// The whole promise in one place: answers and map, nothing acknowledged is lost, never taken back, predecessors, sessions, causes and one outcome,
/// waits, settled, opened again. It needs nothing but that the logs found may be opened and that the history is legal.
pub fn promise()
    ensures { Promise }
{}
