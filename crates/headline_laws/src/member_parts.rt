// Members of a history and their parts on shards.

ghost use Rattle.headline_laws.specs.Parts.{MembersReplayByParts};

/// In a legal history from logs that may be opened: where each shard's own operations of the members replay, in the order of the members'
/// requests, from what its log has of the map at opening to what the log left has of it, the members replay from the one map to the other, to
/// the answers that they were given.
pub fn members_replay_by_parts()
    ensures { MembersReplayByParts }
{}
