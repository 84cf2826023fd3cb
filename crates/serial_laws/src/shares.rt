// Transactions over many shards, by what each shard has of them.

ghost use Rattle.serial_laws.specs.Shares.{ReplayByShards, PartsAreNumbered};

/// Where the parts that each shard has of some transactions replay there, one transaction after another, the whole transactions replay, with the
/// same answers, from a map to a map of which the shards have these shares: a going back on several shards is one act, and it is entered at least
/// on each shard where a write of a later operation is left.
pub fn replay_by_shards()
    ensures { ReplayByShards }
{}

/// What a shard has of such a transaction is numbered in order, and goes back only to what it has not gone back over; so is the whole.
pub fn parts_are_numbered()
    ensures { PartsAreNumbered }
{}
