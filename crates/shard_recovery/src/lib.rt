//! The restart of one shard: from its log, in memory, and over the gate of its log; and whether a log that was found may be that of a shard that
//! went down. `restart` promises exactly the log and the records of the protocol's definition of a restart, from the lists of losers and of
//! those in doubt. `recover` finds out what becomes of each transaction of the log found by what the log says of it, gives the records and the
//! lists of the state after a restart, and writes what the restart adds to the log, in whole batches, before it returns. A live restart takes a
//! disk that somebody may have changed meanwhile: `misfit` promises the exact place where the log on it is none that may be there. It stands on
//! `log_analysis` for what becomes of each, on `cascade_undo`, which writes the CLRs and UNADDs of the losers, and on `log_buffer`, which
//! flushes.
#![tactic(auto)]

mod aborts;
mod agreeing;
mod copying;
mod expecting;
mod misfits;
mod rebuilding;
mod records;
mod recovering;
mod restarting;
mod room;
mod winners;
mod writes;

pub use copying::copy_log;
pub use misfits::{Fallen, misfit};
pub use recovering::{RecoverError, Recovered, recover};
pub use restarting::restart;
