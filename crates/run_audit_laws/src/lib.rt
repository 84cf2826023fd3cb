//! The report of a run whose sessions went through is true of the logs that it found and of those that it left.
//!
//! A session asks the parts of a scan one behind another, so that the parts of an acknowledged transaction's scans are whole; and each request was
//! looked for until its session was told what became of it, so that nothing is unsettled. With these, what `audit_laws` says of legal histories
//! holds of each such run. What a `show` showed before it is what it found; and the text of both is read back as what they told, where what was asked for is
//! within its bounds. It stands on the promise of a run in `cluster_runs`, and on what its members did of the script.
#![tactic(auto)]

pub mod statements;
