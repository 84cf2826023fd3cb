//! The locks that transactions hold on the anchors of a shard, and what a request for more meets: granted, to wait, or to die.
//! Each call is promised to be the protocol's definition over the list of all locks: rows of an anchor and a holder, by anchor and then transaction;
//! of the modes of locks on key ranges, which may be held beside which and what two of them make together, each function is the protocol's table.
//! Calls that change locks take no memory, where room was reserved for the locks that they add. It stands on `clv_base`.
#![tactic(auto)]

mod gaps;
mod holding;
mod list_locks;
mod locks;
mod meeting;
mod part;
mod range;
mod rows;
mod statements;

pub use clv_base::modes::{Mode, Part};
pub use list_locks::ListLocks;
pub use locks::{Locks, Memory};
pub use range::{compatible, join, writes};
pub use statements::takes_few_gaps;
