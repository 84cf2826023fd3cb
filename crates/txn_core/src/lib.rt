//! The transactions of one shard, and their operations.
//! It promises that what an operation comes to, and the records with their ghosts, the locks, the parts, the predecessors and the log after
//! it, are the protocol's definition, for each operation and each decision; a quiet answer and want of memory change nothing. Ghosts go with
//! the last lock on them.
//! It stands on `shard_ops`, and on the traits of `ordered_store` and `lock_table`, so with each store and
//! each lock table.
#![tactic(auto)]

mod aborting;
mod attempt;
mod closing;
mod committing;
mod deciding;
mod ending;
mod finishing;
mod fronts;
mod judging;
mod keeping;
mod knowing;
mod noting;
mod op;
mod parting;
mod performing;
mod plans;
mod rolling;
mod shard;
mod telling;
mod trimming;

pub use attempt::fits;
pub use lock_table::Memory;
pub use op::Reply;
pub use parting::TxParts;
pub use plans::{Closing, ClosingPlan};
pub use shard::ShardTx;
