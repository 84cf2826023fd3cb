//! The types of a sharded transactional store, and the definitions of its protocol: every crate above cites them in its contracts.
//! The definitions stand in specs/, one topic a file; the only code is that of values, and of `Splits`, which tells the shard of a key and the span of a shard.
//! Promises: `Splits::new` takes exactly the lists of splits, and a span is exactly the keys of its shard. A text is
//! seen as the list of its bytes, and copied without memory.
#![tactic(auto)]

pub mod causes;
pub mod changes;
pub mod events;
pub mod kept;
pub mod lists;
pub mod logs;
pub mod messages;
pub mod modes;
pub mod names;
pub mod ops;
pub mod parts;
mod shard_lists;
pub mod shard_log;
pub mod splits;
pub mod state;
pub mod texts;
pub mod values;
mod votes;
