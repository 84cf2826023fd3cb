// A request that stands, until it is decided.
ghost use Rattle.std.specs.Prelude.{◌≡◌, true, length};
ghost use Rattle.cluster_turns.specs.Walkers.{IsSameWalker};
ghost use Rattle.session_ops.specs.Requested.{IsStanding};
ghost use Rattle.session_ops.specs.Dropped.{IsEnding};
ghost use Rattle.clv_base.specs.Sessions.{after_drop};
ghost use Rattle.session_ops.specs.Standings.{StandsAs};
ghost use Rattle.session_ops.specs.Decided.{Leaving, LeavesIf, IsLeftOver, Deciding, is_aborted};

use crate::{SettleError, drop_parts, settle};
use cluster_turns::{Place, Shards, Walker};
use clv_base::names::Point;
use io_model::Pace;
use machine_calls::{Flier, Machine};
use std::alloc::Global;
use std::sync::Wait;

/// Drops the other parts of a transaction that is over. Shards that are down or answer that the clock is worn are passed over.
pub(crate) fn leave_others<M: Machine, R: Wait>(
    rt: &R,
    alloc: Global,
    shards: &Shards<M>,
    walker: &mut Walker<M>,
    place: &mut Place,
    home: u32,
)
    requires ending { IsEnding shards.now walker.old place.old }
    requires over { after_drop place.old.phase ≡ place.old.phase }
    ensures walker { IsSameWalker walker.old walker.new }
    ensures drops { Leaving (length shards.now.locks.items) walker.old.number walker.old.clock walker.old.passes.items place.old.tx place.old.touched home walker.new.clock walker.new.passes.items }
    ensures place { place.new ≡ place.old }
    ensures stands { IsEnding shards.now walker.new place.new }
{
    let _worn = drop_parts(rt, alloc, shards, walker, place, Some(home));
}

fn was_aborted(answer: &Result<Point, SettleError>) -> bool
    ensures { result ≡ is_aborted answer.now }
{
    match answer {
        Err(SettleError::Aborted(_)) => true,
        _ => false,
    }
}

/// Drops the other parts of a transaction that is over at one shard, if it is; else nothing is done. Shards that are down, or answer that the clock is worn,
/// are passed over.
pub fn leave_if<M: Machine, R: Wait>(
    rt: &R,
    alloc: Global,
    shards: &Shards<M>,
    walker: &mut Walker<M>,
    place: &mut Place,
    home: u32,
    over: bool,
)
    requires over { IsLeftOver over shards.now walker.old place.old }
    ensures walker { IsSameWalker walker.old walker.new }
    ensures drops { LeavesIf over shards.now walker.old place.old home walker.new place.new }
{
    if over {
        leave_others(rt, alloc, shards, walker, place, home);
    }
}

/// Looks at the home until the request is decided, and drops the other parts where it is aborted. Of a session's turns it takes only looks and, after
/// the one that was told of the abort, drops. The point is that of the entry that acknowledges it; each error comes only where the turns of the call
/// say so, `Unsettled` as from [`settle`]. After that, `Worn` and `Memory` the request stands.
pub fn finish<M: Flier, P: Pace, R: Wait>(
    rt: &R,
    alloc: Global,
    shards: &Shards<M>,
    walker: &mut Walker<M>,
    place: &mut Place,
    home: u32,
    pace: &P,
) -> Result<Point, SettleError>
    requires standing { IsStanding shards.now walker.old place.old home }
    ensures walker { IsSameWalker walker.old walker.new }
    ensures turns { Deciding (length shards.now.locks.items) walker.old.number walker.old.clock walker.old.passes.items home place.old result walker.new.clock walker.new.passes.items place.new }
    ensures stands { StandsAs shards.now walker.new place.new }
{
    let answer = settle(rt, alloc, shards, walker, place, home, pace);
    let over = was_aborted(&answer);
    leave_if(rt, alloc, shards, walker, place, home, over);
    answer
}
