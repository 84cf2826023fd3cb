//! The core of a shard: its transactions, its tables of voters and of requests, the messages that wait, and the transactions for which
//! something may be due. Its journal, the stamp of its last entry and whether it is up are kept above it. It promises that all that is
//! due is done as the protocol's definition does it, one thing after another by candidates, and that this takes no memory: room for it is
//! part of what always holds. It is made of what recovery found, exactly the state after a restart. It stands on `due_step`, and its
//! maker on `shard_restoring`.
#![tactic(auto)]

mod answering;
mod closing;
mod deciding;
mod doing;
mod dropping;
mod flushing;
mod forgetting;
mod giving;
mod hearing;
mod looking;
mod making;
mod operating;
mod passing;
mod prepares;
mod preparing;
mod reminding;
mod requesting;
mod rolling;
mod sending;
mod settling;
mod shard;
mod telling;

pub use crate::requesting::RequestAnswer;
pub use crate::shard::ShardCore;
pub use prepares::prepares_of;
