//! The lines of live sessions: what a line of the input asks for, and the line that tells an answer.
//!
//! `request_of` reads a line exactly as the grammar says, and `add_reply` writes exactly the line of an answer. `Cutter` cuts the bytes of an input into its
//! lines, one after another, as they come. It stands on scripts, whose words it takes, and on `serde_json` and `hex`.
#![tactic(auto)]

mod calls;
mod cutting;
mod replies;
mod requests;

pub use calls::{Asked, Call, Refusal, Reply};
pub use cutting::{Cutter, MOST_BYTES};
pub use replies::add_reply;
pub use requests::{Request, request_of};

/// Want of memory.
pub type Memory = std::alloc::AllocError;
