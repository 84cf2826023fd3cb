//! The records of a shard's log, in memory, and their way to its gate: a list that only grows, with three fronts: what is durable, what was taken,
//! and the end. It promises that a batch is the longest run of next records that fits its limit, that of a transaction are told its newest writes
//! that stand, how many stand and where it last took one back, that no call but `reserve` and the makers takes memory, and that `room` is exactly
//! what was reserved and is neither used nor given back. `flush_all` makes every record durable in whole batches, or says that the disk failed: then
//! each log that the gate may have is the records that were durable, with the batch that was in flight or without. `batch_bytes` gives the bytes of
//! one batch. No clause speaks of time; what is told of a transaction's writes takes no walk over the log.
//! It stands on the definitions of `clv_base`, on `tx_table`, and on `log_gate` for the disk.
#![tactic(auto)]

mod batch;
mod buffer;
mod bytes;
mod chain;
mod flushing;
mod making;
mod measured;
mod payload;
mod spelling;
mod undoing;

pub use batch::Extent;
pub use buffer::{LogBuffer, Taken};
pub use bytes::batch_bytes;
pub use flushing::{FlushError, flush_all};
pub use measured::{Link, Measured};
pub use spelling::spell;
