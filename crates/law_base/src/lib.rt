//! What the laws of whole histories stand on: lemmas of lists, of tables by transactions, of the places of COMMITs, of runs of operations
//! and of the writes that stand in a log. Its one law says what an abort leaves of a log; the lemmas are in proofs/, by topic.
//! It stands on the definitions of `clv_base`.
#![tactic(auto)]

pub mod laws;
