//! What the checkpoint of a log keeps of it. The definitions stand in `clv_base`; here are the laws, each of them the clause of a function with
//! an empty body: what stands in a checkpoint, its map and last RESTART, and that the checkpoint of a checkpoint is itself.
//! It stands on the lemmas of standing writes in `law_base`.
#![tactic(auto)]

pub mod laws;
pub mod rows;
