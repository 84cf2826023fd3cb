// Whole transactions and their parts.

ghost use Rattle.headline_laws.specs.Shares.{ReplayByShards, SharesMakeTheMap};

/// Where the parts that each shard has of some transactions replay, one transaction after another, from what its log has of the map at first to
/// what its log has of the map at last, the whole transactions replay from the one map to the other, with the same answers.
pub fn transactions_replay_by_shards()
    ensures { ReplayByShards }
{}

/// What each log has of the map that the logs stand for, one shard after another, is that map.
pub fn shares_make_the_map()
    ensures { SharesMakeTheMap }
{}
