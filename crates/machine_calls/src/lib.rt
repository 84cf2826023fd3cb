//! The calls of a shard's machine, as those above it see them: events, flushes, restarts, and the parts at its end; and how one is made
//! of a disk's log. Each tells what it does by the state of the definitions, with its journal, and by the gate that the machine has, if
//! it has it. Whoever puts a machine to use knows these traits alone.
#![tactic(auto)]

mod disks;
mod flights;
mod machine;
mod making;
mod opened_disks;
mod recovering;
mod restarts;

pub use disks::Reopener;
pub use flights::{Flier, Flight};
pub use machine::{Machine, Parts, StepError};
pub use making::Maker;
pub use opened_disks::OverDisks;
pub use recovering::{recover_shard, take_apart};
pub use restarts::Restarter;
