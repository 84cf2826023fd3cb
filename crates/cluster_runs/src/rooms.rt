// All memory that must not be wanting later.
ghost use Rattle.std.specs.Prelude.{◌≡◌, ◌≤◌, vec_len, vec_capacity, IfOk};
ghost use Rattle.cluster_runs.specs.Begun.{IsFresh};

use cluster_closing::Room;
use cluster_turns::Home;
use machine_calls::Machine;
use std::alloc::{AllocError, Global};
use turn_lock::TurnLock;

// The most shards.
const SHARDS: usize = 16;

// Room for the end of a cluster, whose lists of passes are still to come, and for its locks.
pub(crate) fn take_rooms<M: Machine>(
    alloc: Global,
) -> Result<(Room<M>, Vec<TurnLock<Home<M>>>), AllocError>
    ensures room { IfOk result (λ r. IsFresh 16 r.0) }
    ensures locks { IfOk result (λ r. (vec_len r.1 ≡ 0) × (16 ≤ vec_capacity r.1)) }
{
    let passes = Vec::with_capacity(alloc, SHARDS)?;
    let journals = Vec::with_capacity(alloc, SHARDS)?;
    let maps = Vec::with_capacity(alloc, SHARDS)?;
    let homes = Vec::with_capacity(alloc, SHARDS)?;
    match Vec::with_capacity(alloc, SHARDS) {
        Ok(locks) => {
            let room = Room {
                passes,
                homes,
                journals,
                maps,
            };
            Ok((room, locks))
        }
        Err(error) => {
            homes.destroy_empty();
            Err(error)
        }
    }
}
