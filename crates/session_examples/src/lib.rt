//! Whole programs of a user of sessions, from the disks of a house and back to them, as models for code that stands on `session_api`; and
//! of a user of turns, as models for code that stands on `turn_lock`.
//!
//! `open_transfer_close` is the one to read first: a cluster is opened, one session moves an amount between two keys in as many tries as
//! it may have, and all is closed. The others make any calls of a session, let sessions on threads transfer beside each other, and bring
//! a shard back whose disk has failed. After each of them every disk is in the house again. `put_and_go_back` takes a write back to a savepoint.
#![tactic(auto)]

mod calling;
mod calls;
mod closing;
mod horizon;
mod numbers;
mod reviving;
mod second_thoughts;
mod shard;
mod sitting;
mod threads;
mod together;
mod transferring;
mod transfers;
mod turn_lock_closing;
mod visits;

pub use calling::{Quiet, open_call_close};
pub use calls::{Call, Said, make_call};
pub use closing::Left;
pub use horizon::look_beside_turns;
pub use numbers::{Entry, Numbers};
pub use reviving::{Revival, Revived, open_revive_close};
pub use second_thoughts::{put_and_go_back, taken_back_is_as_before};
pub use shard::{Record, Shard};
pub use threads::write_both;
pub use together::open_transfer_together_close;
pub use transferring::open_transfer_close;
pub use transfers::{Refusal, Stop, Transferred, transfer};
pub use turn_lock_closing::close_both;
pub use visits::{fetch, give_back};
