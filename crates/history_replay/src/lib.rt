//! Maps from keys to values, serial runs over them, what a set of logs stands for, and the history that the shards' journals make.
//!
//! `KeyMap` is a list of pairs with rising keys, as the definitions see it, in a map of std. `replay` gives each transaction the answers that it
//! has when all run one after another, operations and goings back, and the last map; `stands` gives the map of the committed transactions' writes
//! that stand, and `fold` does those of one log and of a set. A `History` is there for clauses alone: the definitions read its journals, and `replayed` runs its acknowledged transactions in the
//! order of their requests. It stands on `clv_base`, `log_analysis` and `quiet_list`.
#![tactic(auto)]

mod acts;
mod history;
mod laws;
mod map;
mod replays;
mod standing;
mod transactions;

pub use acts::Act;
pub use history::History;
pub use laws::{one_journal, one_shard};
pub use map::KeyMap;
pub use replays::replay;
pub use standing::{fold, stands};
pub use transactions::TxSet;

/// Want of memory.
pub type Memory = std::alloc::AllocError;
