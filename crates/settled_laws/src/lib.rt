//! Laws of histories that begin on settled shards: where each shard had decided every closed part before the first entry of a session, and
//! none is restarted, no closed part is ever undone, and so each abort that is told is that of a younger transaction in an older one's way.
//!
//! Each law is the clause of a function with an empty body; the statements stand in specs/. They stand on the laws of what becomes of a
//! transaction over all shards in `fate_laws`.
#![tactic(auto)]

pub mod deaths;
