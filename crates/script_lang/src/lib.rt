//! Scripts: text that says what the sessions of a run do, line by line; and workloads made from a number.
//!
//! `parse` meets the grammar both ways: what it accepts is the script's one meaning, and what it refuses names the first line
//! outside the grammar at its place. `Following` tells what a transaction does next, given its answers so far, and `Savepoints` where it may go back
//! to. `generate` gives exactly the script of a workload's definition: it fills accounts, and then has each session move amounts between them. It
//! stands on the operations of `clv_base`, and on `hex`, by which texts are spelled.
#![tactic(auto)]

mod actions;
mod following;
mod generating;
mod lines;
mod numbers;
mod parsing;
mod reader;
mod savepoints;
mod script;
pub mod statements;
pub mod workload_laws;

pub use actions::{Action, Ending};
pub use following::{Following, Step};
pub use generating::generate;
pub use lines::{Line, is_blank, line_of, number_of, parted};
pub use parsing::{MOST_BYTES, ScriptError, parse};
pub use savepoints::Savepoints;
pub use script::{Script, Session, Transaction};

/// Want of memory.
pub type Memory = std::alloc::AllocError;
