// A shard's no aborts a transaction over two shards, and the one that read its write.

ghost use Rattle.history_examples.specs.Aborted.{RefusedIsLegal, RefusedHasCauses, RefusedHasNoMember, MetIsLegal, MetBeginsSettled};

/// A shard restarts before it is asked for its vote and says no; a younger transaction met the active writer and died; the history is legal.
pub fn refused_is_legal()
    ensures { RefusedIsLegal }
{}

/// Each is told the cause that stands: the older one in the way, its predecessor's abort, the no of the restarted shard.
pub fn refused_has_causes()
    ensures { RefusedHasCauses }
{}

/// None of the three is a member, and all are told of their aborts.
pub fn refused_has_no_member()
    ensures { RefusedHasNoMember }
{}

/// Up to the younger one's death, from shards that were never used, it is legal too.
pub fn met_is_legal()
    ensures { MetIsLegal }
{}

/// There each shard begins settled, and none is restarted.
pub fn met_begins_settled()
    ensures { MetBeginsSettled }
{}
