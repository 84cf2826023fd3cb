//! A session on a cluster: transactions, one after another, each with its operations, and a commit or an abort; and the session as one of a script.
//! A transaction may keep savepoints, and go back to where it stood at one.
//!
//! Each call may be made at any time, and is refused exactly where the session's last transaction doesn't stand so. What it answers is
//! read from the turns that it took; after each answer the session is one again. So its calls promise what whoever runs a script is promised
//! (`script_runs`): what a call adds to the session's entries is told by its answer, and what stops a session has its grounds, a shard that the
//! walker has seen down, or a clock at its end.
//!
//! A whole program that opens a cluster, transfers by a session in as many tries as it may have, and closes is
//! `session_examples::open_transfer_close`.
#![tactic(auto)]

mod beginning;
mod calls;
mod ending;
mod ends;
mod operating;
mod progress;
pub mod promises;
mod retrying;
mod rounds;
mod savepoints;
mod script_session;
mod session;
mod stages;
pub mod told_promises;

pub use beginning::BeginError;
pub use ending::{AbortError, CommitError};
pub use operating::OpError;
pub use progress::Progress;
pub use retrying::RetryError;
pub use savepoints::{RollError, SaveError};
pub use script_session::ScriptSession;
pub use session::Session;
pub use session_ops::{RoundError, Settled};
