//! Live sessions beside each other, over all shards of a house: each has a walker of its own, and they live on threads (`live_threads`). Before and behind them
//! stand the drains of a run, and its close (`cluster_runs`).
#![tactic(auto)]

mod laws;
mod over;
mod sessions;
mod whole;

pub use laws::replies_are_in_history;
pub use over::{Served, serve_over};
pub use whole::{LiveRan, serve_all};
