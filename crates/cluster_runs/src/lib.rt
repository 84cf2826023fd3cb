//! Runs the sessions of a script beside each other over all shards of a house: the disks are opened, each shard is recovered and goes
//! into its lock, the shards are drained, each session runs on a thread of its own, the shards are drained again and closed. What it kept
//! is a legal history that keeps the whole promise of a run, whatever became of it, and its status tells of disks and sessions.
//!
//! What the program promises of a run stands here, too, as definitions over its history and over what its disks tell: that the history is legal,
//! what each disk holds in each image that a crash may leave, and that each choice of what a crash keeps has the whole promise over all
//! histories (`headline_laws`); for any number of shards and sessions, with laws that give it from a legal history. It stands on the opening
//! and the end of a cluster, and on a script's sessions on threads.
#![tactic(auto)]

mod beginning;
mod closing;
pub mod cluster_promises;
mod draining;
mod locking;
pub mod members;
mod over;
mod plan;
pub mod promises;
mod ran;
pub mod replay;
mod rooms;
mod seats;
mod sessions;
pub mod shards_statements;
mod standing;
pub mod statements;
mod whole;

pub use beginning::{Opened, open_all};
pub use closing::close_run;
pub use draining::{drain_all, drain_last};
pub use over::run_over;
pub use plan::Plan;
pub use ran::Ran;
pub use script_runs::Start;
pub use standing::begun_logs_stand_for_the_same;
pub use whole::run_script;
