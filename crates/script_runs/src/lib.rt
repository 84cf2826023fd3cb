//! Runs the sessions of a script, each on a thread of its own: its transactions in order, each in its tries, until all are done or the
//! session is stopped.
//!
//! What it adds to the session's entries is exactly what the definitions of tries say. It stands on those, on scripts, and on a trait:
//! what a session's calls promise.
#![tactic(auto)]

mod behind;
pub mod book_laws;
mod calls;
mod ends;
pub mod examples;
pub mod fates;
pub mod promises;
mod retrying;
mod running;
mod seats;
pub mod statements;
mod threads;
mod trying;

pub use calls::{SessionCalls, Stage};
pub use ends::{StopCause, TryEnd};
pub use running::run_session;
pub use seats::Seat;
pub use threads::{Start, run_all};

/// Want of memory.
pub type Memory = std::alloc::AllocError;
