//! What threads may hand to each other.
use io_model::Disk;
use lean_machine::LeanMachine;
use lock_table::ListLocks;
use log_gate::LogGate;
use ordered_store::BlockStore;
use shard_machine::ShardMachine;

fn may_be_sent<T: Send>() {}

/// A machine over blocks, a list of locks and a log on such a disk may be handed to another thread.
pub fn machines_may_be_sent<D: Disk + Send>() {
    may_be_sent::<LeanMachine<ShardMachine<BlockStore, ListLocks, LogGate<D>>>>();
}
