//! What a legal history of many shards promises, whatever the logs found leave in doubt and whatever a crash keeps: the members replay to
//! their answers and to the map of the logs left; each predecessor of a member is a member before it, or was committed when the logs were
//! found; where nothing is left to do the live records are that map; who was told of success is a member; and what a crash leaves may be
//! opened again. `promise` gathers all laws over all histories in one record.
//!
//! Each law is the clause of a function with an empty body; the statements stand in specs/. An operation meets keys of one shard alone,
//! so members whose parts replay on each shard replay; by `fate_laws` the laws of one shard hold of each; and a member is here on each
//! shard, as it voted yes there, or read, or was never there.
#![tactic(auto)]

pub mod acknowledged;
pub mod ending;
pub mod member_parts;
pub mod one_shard;
pub mod reader;
pub mod reopened;
pub mod sessions;
pub mod shard_replay;
pub mod statements;
pub mod unfallen_members;
pub mod where_here;
