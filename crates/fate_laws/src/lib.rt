//! Laws of what becomes of a transaction over all shards, of every legal history. What is decided once is decided for good, and on every
//! shard; of those of earlier runs none is committed anew. Whatever a shard has of a transaction comes of entries of the history, or of an
//! earlier run; who waits for whom, so that none waits for itself; and each death and each abort has the cause that it names. Who fell is never
//! committed where it fell, so each shard of many is one as the laws of one shard (`shard_laws`) suppose it.
//!
//! Each law is the clause of a function with an empty body; the statements stand in specs/, by topic. They stand on the definitions of
//! `clv_base` and on the laws of whole histories in `history_laws`.
#![tactic(auto)]

pub mod aborts;
pub mod causes;
pub mod commits;
pub mod decisions;
pub mod each_shard;
pub mod earlier_runs;
pub mod falls;
pub mod members;
pub mod origin;
pub mod votes;
pub mod wait;
