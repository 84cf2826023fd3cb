//! Calls of a session on a cluster. Single steps: a beginning, an operation on one shard, a request, a look, drops, another try, and the
//! rounds of one who waits. Calls that take many turns: the decision of a request, a commit from its request to its decision with the
//! drops of what is left of it, an abort, and operations and scans over the shards that they meet.
//!
//! What each answers is read from the turns of the call alone. The walker's entries stay a session's, its place in the transaction
//! follows them, and after each answer it is told how the transaction stands.
#![tactic(auto)]

mod aborting;
mod asking;
pub mod begin_promises;
mod beginning;
mod committing;
pub mod drop_promises;
mod dropping;
mod ended_leaving;
mod flushes;
mod going_back;
mod leaving;
mod looking;
mod operating;
mod parts;
mod patience;
mod points;
pub mod promises;
mod requesting;
pub mod retry_promises;
mod retrying;
mod rolling;
mod rounds;
mod scanned_parts;
mod scanning;
mod settled_looking;
mod settling;
mod waiting;

pub use aborting::abort;
pub use asking::ask;
pub use beginning::begin;
pub use committing::{CommitEnd, CommitError, Settled, commit};
pub use dropping::drop_part;
pub use ended_leaving::{finish, leave_if};
pub use going_back::{roll_again, roll_to};
pub use leaving::drop_parts;
pub use looking::look;
pub use operating::{OpError, operate};
pub use parts::RoundError;
pub use points::{add, at_key, del, get, put};
pub use requesting::request;
pub use retrying::retry;
pub use rolling::BackError;
pub use rounds::round;
pub use scanning::scan;
pub use settled_looking::SettleError;
pub use settling::settle;
