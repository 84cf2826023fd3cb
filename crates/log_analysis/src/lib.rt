//! What a log says of each transaction, and what becomes of each at a restart, as the analysis pass of recovery finds it.
//!
//! `LogFacts` knows for every log, in order or not, record by record, where a transaction's first UPDATE or ADD, its PREPARE and its COMMIT stand,
//! how many of its UPDATEs and ADDs stand, and whether it has an ABORT and an END; `lists` reads the record at such a place. `standing_lsns` tells
//! which UPDATEs and ADDs stand. `analyse` tells exactly the losers, the transactions in doubt with their homes and with the predecessors that they
//! still wait for, and the COMMITs that are coordinated again. By a law the log after the restart has the same lists, but for the losers. It stands
//! on the definitions of `clv_base`.

#![tactic(auto)]

mod analysis;
mod doubt;
pub mod facts;
mod listing;
pub mod lists;
mod set;
mod standing;
pub mod statements;
mod table;
mod unended;
mod writers;

pub use analysis::{Analysis, analyse, analyse_by};
pub use set::TxSet;
pub use standing::standing_lsns;
pub use table::LogFacts;

/// Want of memory.
pub type Memory = std::alloc::AllocError;
