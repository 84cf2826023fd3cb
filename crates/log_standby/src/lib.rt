//! A standby: it is fed the bytes of shards' logs, cut anywhere, and shows the map of the transactions of which it has all that it needs.
//!
//! `Standby::feed` takes a piece of a shard's bytes behind what that was fed before. A piece that can't be of a log is refused, as soon as no bytes at
//! all could follow that make it one, and then nothing has changed; so is one with a record that is out of order. `shown` gives the map of the members'
//! writes, by the definitions of `standby_base`; it depends on the bytes alone, not on where they were cut. It stands on `record_stream` for bytes, on
//! `log_rules` for the order, and on `standby_maps`.
#![tactic(auto)]

mod error;
pub mod laws;
mod standby;

pub use error::FeedError;
pub use standby::Standby;

/// Want of memory.
pub type Memory = std::alloc::AllocError;
