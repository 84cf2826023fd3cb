//! Laws of serial runs: operations and goings back to savepoints that were done in one order, replayed in another, transaction by transaction; and
//! transactions over many shards, by what each shard has of them.
//!
//! Each law is the clause of a function with an empty body; the statements stand in specs/, and that of acts at places in `clv_base`. They stand on
//! the law of operations alone of `clv_base`, and know nothing of logs, locks and events.
#![tactic(auto)]

pub mod acts;
pub mod shares;
