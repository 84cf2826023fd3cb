//! Commands of the program one behind another, by callers of its top call alone: what their clauses say together of a store that is made, run over and
//! shown, of one whose sessions live, and of one whose run is audited. It stands on `clv_commands`, on the laws of `cluster_runs` about what the next run
//! finds, and on those of `run_audit_laws` about the report of a run.
#![tactic(auto)]

mod audits;
mod chains;

pub use audits::{Audited, run_and_audit};
pub use chains::{Chain, Shown, make_run_twice_and_show, serve_and_show};
