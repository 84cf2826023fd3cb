//! The records of a shard, by rising keys: live values, and ghosts, which are keys whose value was deleted and that a lock may still need.
//! The trait `Store` promises that each call is the protocol's definition over the list of all records, and that writes take no memory
//! where the key is there or room was reserved. `SortedStore` keeps them in one sorted list, `BlockStore` in blocks of a few records each, so that
//! a new key moves little. It stands on the definitions of `clv_base`.
#![tactic(auto)]

mod block;
mod block_finding;
mod block_ranging;
mod block_store;
mod block_writing;
mod counting;
mod growing;
mod rows;
mod search;
mod sorted_store;
mod steps;
mod store;

pub use block_store::BlockStore;
pub use sorted_store::SortedStore;
pub use steps::Steps;
pub use store::Store;
