// An abort.
ghost use Rattle.std.specs.Prelude.{◌⊎◌, length};
ghost use Rattle.cluster_turns.specs.Walkers.{IsSameWalker};
ghost use Rattle.session_ops.specs.Dropped.{Dropping, IsLeft};
ghost use Rattle.session_ops.specs.Standings.{IsUnasked, IsAborted};
ghost use Rattle.std.specs.Prelude.{None};

use crate::drop_parts;
use cluster_turns::{Place, Shards, Walker, WornClock};
use machine_calls::Machine;
use std::alloc::Global;
use std::sync::Wait;

/// Drops the transaction, which made no request that stands, on all shards that it touched, each in one turn. Shards that are down or have no part of it are
/// passed over. `WornClock` comes exactly where a turn would have had a stamp past the last; some parts may be dropped then and others not, so the
/// transaction may have no operation any more, and may be aborted again.
pub fn abort<M: Machine, R: Wait>(
    rt: &R,
    alloc: Global,
    shards: &Shards<M>,
    walker: &mut Walker<M>,
    place: &mut Place,
) -> Result<(), WornClock>
    requires unasked { IsUnasked shards.now walker.old place.old }
    ensures walker { IsSameWalker walker.old walker.new }
    ensures drops { Dropping walker.old.number walker.old.clock walker.old.passes.items place.old.tx place.old.touched None 0 (length shards.now.locks.items) result walker.new.clock walker.new.passes.items }
    ensures place { IsLeft place.old place.new }
    ensures stands { IsAborted shards.now walker.new place.new }
{
    match place.home() {
        None => Ok(()),
        Some(_) => drop_parts(rt, alloc, shards, walker, place, None),
    }
}
