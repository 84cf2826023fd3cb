//! The end of a cluster, as one call: with all its walkers each lock gives its shard back, every disk goes back to its house, and the
//! shards' journals, which are a legal history, their records and the lowest shard that is down come out. Of a shard that is down the
//! walker that fetched its disk may restart it: the disk is recovered with no turn held, and then, in one turn, the shard is up again
//! with its records; where a restart is refused nothing is noted, and it may be tried again.
//!
//! It knows a machine by its traits alone (`machine_calls`), and the disks of its gates by `OverDisks`. Laws beside it tell which disks
//! and gates the walkers have.
#![tactic(auto)]

mod closing;
pub mod end_promises;
mod ending;
mod error;
mod fetching;
pub mod home_promises;
mod judging;
mod leaving;
pub mod lock_ends;
mod lock_parting;
mod memory;
mod parting;
pub mod promises;
mod recovering;
pub mod restart_promises;
mod returning;
pub mod revival_promises;
mod revived_turn;
mod reviving;
mod taking;
mod turns;
pub mod walker_promises;

pub use closing::close;
pub use error::RestartError;
pub use fetching::{FetchError, Fetched, fetch};
pub use leaving::Closed;
pub use lock_parting::take_apart;
pub use memory::Room;
pub use recovering::{Ready, recover_disk};
pub use revived_turn::restart;
