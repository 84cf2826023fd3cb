//! The transactions of a shard as a restart leaves them.
//! `restored` makes them of the store and the log that recovery gives: in-doubt transactions with their parts, locks and predecessors, and room
//! in the log to undo them; exactly the state of the protocol's restart.
//! It stands on `txn_core`, and on the law of `protocol_laws` that a restart leaves no ghost without a lock.
#![tactic(auto)]

mod deps;
mod locks;
mod parts;
mod restoring;

pub use restoring::restored;
