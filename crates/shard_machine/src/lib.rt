//! A shard's machine: the core with its journal, the stamp of its last entry, and the gate of its log. It promises that each of its calls
//! is the protocol's event, with its entry, and which take no memory. Stands on `shard_core` and the laws of `machine_laws`.
#![tactic(auto)]

mod answers;
mod asking;
mod calls;
mod delivering;
mod disks;
mod dropping;
mod flights;
mod flying;
mod forgetting;
mod gates;
mod happening;
mod hearing;
mod journal;
mod landing;
mod look_event;
mod looking;
mod machine;
mod making;
mod numbers;
mod operating;
mod operations;
mod reminding;
mod reopening;
mod reviving;
mod rolling;
mod sending;
mod staleness;
mod stamps;
mod stepping;
mod stopping;

pub use answers::{answer_question, take_decision, take_done, take_vote};
pub use happening::Happened;
pub use journal::Journal;
pub use look_event::look;
pub use machine::ShardMachine;
pub use numbers::Numbers;
pub use operations::operate;
pub use staleness::is_stale;
