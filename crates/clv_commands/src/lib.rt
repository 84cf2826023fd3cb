//! The program's commands, as one call over any source, sink and house of disks: `run` makes the logs of shards, runs the sessions of a script or of
//! a workload beside each other over them, shows what they hold, judges a run's report by them, or shows what a standby
//! shows of them.
//!
//! The contract of `run` is the promise of the program. It stands on `command_line` and `script_lang` for what it reads, on `cluster_opening` and
//! `cluster_runs` for the disks, on `report_reading` and `clv_audit` for the audit, on `standby_maps` for the standby, and on `report_text` and `command_line` for what it answers.
#![tactic(auto)]

mod auditing;
mod ended;
mod loading;
mod making;
mod running;
mod serving;
mod showing;
mod standing;
pub mod sums;
mod top;

pub use ended::Ended;
pub use top::run;
