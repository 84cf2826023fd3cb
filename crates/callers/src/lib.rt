//! Callers of stores, of lock tables, of a shard's recovery and of its machine, by their contracts alone: each shows what these give to who stands on
//! them, and tests run them.
//!
//! Lists of calls of a store and of a lock table promise the answers of the definitions for every store and every table; so by a law two lock tables
//! answer alike. A restart promises that the transactions are in exactly the protocol's state after it, and that what it adds to the log is durable. A machine
//! may be begun, flushed, and taken off its disk and put back, and handed to another thread where the disk may. It stands on the traits of `ordered_store`,
//! `lock_table` and `machine_calls`, and on `shard_restoring` and `shard_machine`.
#![tactic(auto)]

mod beginning;
mod flushing;
mod leaving;
mod lock_answers;
mod lock_calls;
mod lock_laws;
pub mod lock_running;
mod lock_taking;
mod restarting;
mod sending;
mod store_answers;
mod store_calls;
pub mod store_running;

pub use beginning::begin;
pub use flushing::flush;
pub use leaving::{Away, come_back, take_off};
pub use lock_answers::{HolderList, LockAnswer};
pub use lock_calls::LockCall;
pub use lock_laws::tables_answer_alike;
pub use restarting::{Restarted, restart};
pub use sending::machines_may_be_sent;
pub use shard_recovery::RecoverError;
pub use store_answers::{FoundList, StoreAnswer};
pub use store_calls::StoreCall;
