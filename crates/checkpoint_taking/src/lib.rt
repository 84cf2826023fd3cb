//! The checkpoint of a log, as the payloads of a file.
//!
//! `checkpoint_of` gives the records with which the file of a log's checkpoint begins (`check_records` of `clv_base`), spelled and cut into
//! payloads between records: run and epoch of the last RESTART, the pairs of the map of those committed, what is still needed of the log, and
//! the end. It holds for every log in order whose records have spellings. It stands on `log_analysis` for what a log says of each transaction
//! and which writes stand, on `history_replay` for the map, and on `log_records` for bytes.
#![tactic(auto)]

mod batches;
mod committed;
mod keeping;
mod lsns;
mod parts;
mod taking;

pub use taking::checkpoint_of;

/// Want of memory.
pub type Memory = std::alloc::AllocError;
