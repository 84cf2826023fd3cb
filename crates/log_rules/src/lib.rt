//! The rules of logs: which record may follow which in one log, and whether the logs of all shards agree on each commit.
//!
//! `in_order` finds the first record of a log that breaks its rule. It reads the log once, with an index of what it read: what the log says of
//! each transaction, which it gives of a log in order, the writes that stand, what they leave at each key, who wrote there of those without a
//! COMMIT, and who bars a RESTART.
//! `disorder` tells the place alone. `apart_by` finds the least transaction that has no home in the logs, for every list of logs, by what each
//! says; `apart` asks each first. An `IndexedLog` is a log with what it says, and `committed` lists who is committed in some log. It stands on the definitions of `clv_base` and on `log_analysis`.

#![tactic(auto)]

mod adding;
mod agreement;
mod commits;
mod error;
mod index;
mod indexed;
mod listers;
mod order;
mod rules;
mod shares;
mod writes;

pub use agreement::{apart, apart_by, facts_of, index_all};
pub use commits::committed;
pub use error::OrderError;
pub use indexed::IndexedLog;
pub use order::{disorder, in_order};

/// Want of memory.
pub type Memory = std::alloc::AllocError;
