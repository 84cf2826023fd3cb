//! A shard's log on one of its two sides, whose batches stand behind gates. After a crash at any moment of a push the log is the old
//! one, or the old one with the whole batch; after `Ok` it is the latter. Opening finds the header and all records, or
//! the first place that breaks the format. It stands on disks (`io_model`) and on the spelling of records
//! (`log_records`).
#![tactic(auto)]

mod anew;
mod calls;
mod choosing;
mod error;
mod gate;
mod header;
mod keeping;
mod making;
mod opening;
mod parse;
mod reading;
mod reopening;
mod walking;

pub use error::{MakeError, OpenLogError};
pub use gate::{LogGate, PushError};
pub use header::Header;
pub use keeping::Gate;
pub use making::{length_of, make};
pub use opening::open_log;
pub use reopening::{open_gate, sides_of};
