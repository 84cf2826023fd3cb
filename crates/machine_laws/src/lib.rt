//! Laws that a shard's machine stands on, and of what lies in a shard's lock.
//! Promises, as laws of the definitions: nothing that is due reads the journal, the last stamp or whether the shard is up; that all names and shards
//! that messages and records are made of fit, through each event, the end of a flush and a restart; and that each call of a machine goes on what its
//! shard has noted, with what stays while others have their turns. Notes tell each entry, with the log that a restart left, and who took the disk of
//! a shard that is down.
//! It stands on the definitions of `clv_base` and of `machine_calls`, and on the laws of `protocol_laws` and `journal_laws`.
#![tactic(auto)]

pub mod frame;
pub mod naming;
mod notes;
pub mod turns;

pub use notes::{Mark, Note, Origin};
