//! Records that come as bytes, cut anywhere.
//!
//! A `RecordStream` holds the bytes of a record that isn't whole yet. `read` takes a piece behind them, and tells which records came whole and what
//! waits then. It refuses a piece as soon as no bytes at all could follow that make all of them records, and only there. It stands on the
//! spellings of `log_records`, and on `byteorder` for numbers.
#![tactic(auto)]

mod error;
mod lists;
mod names;
mod numbers;
mod records;
pub mod statements;
mod stop;
mod stream;
mod values;

pub use error::{Memory, StreamError};
pub use stream::{Read, RecordStream};
