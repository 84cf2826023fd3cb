//! Whether a report is true of the pairs that were shown before its run, and of the logs after it.
//!
//! `check_report` reads the bytes back, runs the transactions one after another over the pairs, and stops at the first that no serial run has; else
//! it compares the map that they lead to with the map that the logs stand for. Its verdict is that of a table of four rows, whatever the bytes; it
//! writes to no log. It stands on `report_reading`, and on the maps and standing logs of `history_replay`.
#![tactic(auto)]

mod auditing;
pub mod statements;
mod steps;
mod verdict;

pub use auditing::{check_report, verdict_on};
pub use verdict::{AuditError, Verdict};

/// Want of memory.
pub type Memory = std::alloc::AllocError;
