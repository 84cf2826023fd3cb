// The memory of a cluster's end.

use cluster_turns::Home;
use clv_base::events::Entry;
use machine_calls::Machine;
use machine_laws::{Note, Origin};
use quiet_list::Told;
use turn_lock::Pass;

/// All memory that the end of a cluster takes, made when the cluster began.
pub struct Room<M: Machine> {
    /// For each shard an empty list, with room for the passes of all walkers.
    pub passes: Vec<Vec<Pass<Home<M>, Note, Origin>>>,
    pub homes: Vec<Home<M>>,
    pub journals: Vec<Told<Entry>>,
    pub maps: Vec<M::Store>,
}
