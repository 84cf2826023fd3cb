//! What the report of a history is made of, and what a session keeps of its own part: a row for each acknowledged transaction, with its operations and
//! goings back, and three counts.
//!
//! A `Book` keeps what a session was told. The law of `statements` says that the books of all sessions make the report: their rows by the places of the requests are
//! the history's, and their counts add up to its counts. It stands on the definitions of `clv_base`, and on how entries follow in a history in `history_cases`.
#![tactic(auto)]

pub mod books;
pub mod counts;
pub mod done;
pub mod statements;
pub mod told;

/// Want of memory.
pub type Memory = std::alloc::AllocError;
