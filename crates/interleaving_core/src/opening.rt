// The beginning of a seat.
ghost use Rattle.std.specs.Prelude.{◌≡◌, ◌<◌, [], IfOk};
ghost use Rattle.clv_base.specs.Restarts.{opened};
ghost use Rattle.interleaving_core.specs.Seated.{IsSeated};

use crate::ListGate;
use crate::seat::{Air, Seat};
use log_analysis::LogFacts;
use machine_calls::{Machine, Maker};
use ordered_store::Store;
use shard_recovery::recover;
use std::alloc::{AllocError, Global};

/// The shard as it opens an empty log in run 1. An `Err` is want of memory.
pub fn open<M: Maker + Machine<Gate = ListGate>>(
    alloc: Global,
    shard: u32,
) -> Result<Seat<M>, AllocError>
    requires { shard < 16 }
    ensures shard { IfOk result (λ seat. M.shard seat.machine ≡ opened shard 1 []) }
    ensures seated { IfOk result (λ seat. IsSeated (M.shard seat.machine) (M.gate seat.machine) seat.air) }
{
    let Ok(mut store) = M::Store::empty(alloc) else {
        return Err(AllocError);
    };
    let mut gate = ListGate::new(alloc, shard);
    let log = Vec::new(alloc);
    let facts = LogFacts::new(alloc);
    let Ok(recovered) = recover(alloc, &mut store, &mut gate, log, facts, shard, 1, 0) else {
        return Err(AllocError);
    };
    match M::new(alloc, gate, store, recovered, shard, 1, 0) {
        Ok(machine) => Ok(Seat {
            machine,
            air: Air::Home,
        }),
        Err(_) => Err(AllocError),
    }
}
