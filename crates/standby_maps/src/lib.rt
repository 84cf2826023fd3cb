//! What a standby shows, computed: the members of streams, and the map of what they wrote.
//!
//! `members` gives exactly the greatest set of transactions that are whole, with all that are committed before them; `shown` the map of the members'
//! writes, where all streams have come far enough. Both hold for any streams, in order or not, of shards that agree or don't. It stands on the
//! definitions of `standby_base`, on what a log says by `log_rules`, and on the folds of `history_replay`.
#![tactic(auto)]

mod membership;
mod showing;

pub use membership::members;
pub use showing::shown;

/// Want of memory.
pub type Memory = std::alloc::AllocError;
