//! Shards behind locks, and walkers with the right to turns on each: one event in one turn. A turn finds the shard as its walker has seen
//! it, with what others have done since, and adds one entry or none. A quiet answer is the definitions' in the state of the journal that
//! the walker has then seen.
//!
//! What is made of turns: `flush_once` writes one batch of a shard, with no turn held meanwhile; `carry_once` carries a message from one
//! shard to another; a drain goes in rounds over all shards until each is settled but for active parts. Any call of a walker is told by
//! its turns: a session's place in its transaction, which each outcome moves on, and what the walker knows of the birth of its
//! transaction on each shard.
//!
//! It knows a machine by its traits alone (`machine_calls`).
#![tactic(auto)]

mod carrying;
mod draining;
mod flushing;
mod flying;
mod heap;
mod home;
mod notes;
pub mod place;
pub mod progress_promises;
pub mod promises;
mod reminding;
mod rest_turns;
mod rounds;
mod shards;
mod tending;
mod touched_shards;
pub mod turn_promises;
mod turns;

pub use carrying::{Carry, CarryError, carry_once};
pub use draining::drain;
pub use flushing::{FlushError, Flushed, flush_once};
pub use heap::OnHeap;
pub use home::Home;
pub use place::{Place, Stage};
pub use reminding::{Reminding, remind_once};
pub use shards::{Shards, Walker, WornClock};
pub use tending::DrainError;
pub use touched_shards::TouchedShards;
