//! The beginning of a cluster: the logs of all shards are made, or opened and judged, one after another and then together; each shard is recovered
//! from its log and goes into its lock, with a pass for each walker; walkers are made of the new passes; and an opening that is refused is taken
//! back, with every disk.
//!
//! `make_all` writes nothing where a disk has bytes. `open_disks` gives a gate for each shard, over a disk to which nothing was written,
//! with the log found and what it says of each transaction; or it names the first fault, and puts every disk back unchanged; logs that may be
//! opened are not refused. `read_logs` judges them alike, but for the next run, and gives the logs alone: every disk is back, and unchanged. It stands on
//! `log_gate` and `log_rules` for the logs, on `machine_calls` for the recovery and on `turn_lock`.
#![tactic(auto)]

mod all_opening;
mod closing;
mod disks_giving;
mod disks_opening;
mod durable;
mod error;
mod finding;
mod giving;
mod judging;
mod locking;
mod logs_making;
mod logs_reading;
mod making;
mod making_error;
mod opening;
pub mod opening_laws;
mod undoing;

pub use all_opening::{Stopped, open_shards};
pub use closing::close_unused;
pub use disks_giving::give_back_all;
pub use disks_opening::{Found, open_disks};
pub use durable::restarts_are_durable;
pub use error::{At, OpenError};
pub use giving::give_back_locks;
pub use locking::lock_shard;
pub use logs_making::make_all;
pub use logs_reading::read_logs;
pub use making::make_walkers;
pub use making_error::MakeError;
pub use opening::open_shard;
pub use undoing::undo;
