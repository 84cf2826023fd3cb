// The laws of one shard hold of each shard of many.

ghost use Rattle.fate_laws.specs.Leading.{EachShardLeads};
ghost use Rattle.fate_laws.specs.Ordering.{LogsLeftAreInOrder};
ghost use Rattle.fate_laws.specs.Settling.{QuietShardsAreTheirMaps};
ghost use Rattle.fate_laws.specs.FallTelling.{DeedsAreTold};

/// After each front of a legal history each shard is one that the laws of one shard lead there: with the operations that it answered, and in
/// the order of all requests on any shard, after those that its log left in doubt when it was opened.
pub fn each_shard_leads()
    ensures { EachShardLeads }
{}

/// The log of each shard is in order then, whatever a crash keeps of what is in flight.
pub fn logs_left_are_in_order()
    ensures { LogsLeftAreInOrder }
{}

/// Where a shard is quiet, its live records are the map that its log stands for.
pub fn quiet_shards_are_their_maps()
    ensures { QuietShardsAreTheirMaps }
{}

/// What a shard did is what its own entries tell: of each transaction its operations with their answers, whether it was told of
/// success, and whose writes it violated.
pub fn deeds_are_told()
    ensures { DeedsAreTold }
{}
