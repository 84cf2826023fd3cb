//! What a standby shows of the streams of a legal history: laws of its members and of its map.
//!
//! Each law is the clause of a function with an empty body; the statements stand in specs/. By the promise of `headline_laws` the durable logs of a legal
//! history may be opened, so they agree on the home and the parts of each transaction that is committed in one of them: streams are cuts of such logs.
#![tactic(auto)]

pub mod laws;
