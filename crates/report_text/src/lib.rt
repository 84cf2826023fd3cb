//! The texts that the program prints: the report of a run, and the pairs of a map.
//!
//! Each is exactly its definition, as compact JSON with a line feed after each line. A report is made whole before any of it is written, from the books that
//! the sessions kept; `books_report` says that it is the report of the history. It stands on the definitions of `clv_base`, the books of `session_books`, the
//! sinks of `io_model`, the writer of `serde_json`, and `hex`.
#![tactic(auto)]

mod books;
mod counts;
pub mod laws;
mod lines;
mod loads;
mod pairs;
mod texts;

pub use books::{report_of_books, report_of_books_into};
pub use loads::load_text;
pub use pairs::pairs_text;
pub use texts::ReportError;

/// Want of memory.
pub type Memory = std::alloc::AllocError;
