// What a cluster leaves.

use cluster_turns::Home;
use clv_base::events::Entry;
use machine_calls::Machine;
use quiet_list::Told;
use std::snapshot::Snapshot;

/// What a cluster leaves, shard by shard: the journals, and the stores with their records. `down` is the lowest shard that is down.
pub struct Closed<M: Machine> {
    pub journals: Vec<Told<Entry>>,
    pub maps: Vec<M::Store>,
    pub down: Option<u32>,
    /// The shards as they came out of their locks, for contracts alone.
    pub ends: Snapshot<Vec<Home<M>>>,
}
