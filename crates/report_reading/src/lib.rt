//! Reports read back: the lines of a `show`, perhaps none, and then the report of a run.
//!
//! `read_report` is the inverse of what is written: it answers the content exactly where the bytes are the text of it, byte for byte, and else the
//! first line after which no report goes on. A report tells transactions that some session may have had: each operation as a session takes it, with
//! an answer of its kind, and goings back only to where the transaction still could; whether the answers are right it doesn't say. It stands on the
//! texts of `report_text`, the acts of `session_books`, the bounds of `script_lang`, and the reader of `serde_json`.
#![tactic(auto)]

mod acts;
mod lines;
mod reading;
pub mod statements;
mod told;
mod values;

pub use reading::{ReadError, read_report};
pub use told::{Line, Reported, ReportedTx, Transactions};

/// Want of memory.
pub type Memory = std::alloc::AllocError;
