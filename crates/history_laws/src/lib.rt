//! Laws of whole histories, over all shards: every list of entries that is a legal history of the protocol, whatever the interleaving,
//! and every choice of what a crash keeps of the batches in flight. What stands in their logs may stand there: homes and parts are shards
//! that there are, and each key lies in its shard's span. And what an entry of a session tells of its entries before it. `LegalFrom` is the
//! premise of the laws above: a legal history, from logs that may be opened.
//!
//! Each law is the clause of a function with an empty body; the statements stand in specs/, by topic. They stand on the definitions of
//! `clv_base`, on the laws of single events and of one shard (`protocol_laws`, `shard_laws`), and on `history_cases`.
#![tactic(auto)]

pub mod members;
pub mod session_entries;
pub mod sessions;
pub mod statements;
