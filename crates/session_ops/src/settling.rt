// Looks until a request is decided.
ghost use Rattle.std.specs.Prelude.{◌≡◌, ◌<◌, length};
ghost use Rattle.cluster_turns.specs.Walkers.{IsSameWalker};
ghost use Rattle.session_ops.specs.Rounds.{RoundRests};
ghost use Rattle.session_ops.specs.Requested.{IsStanding};
ghost use Rattle.session_ops.specs.Settled.{IsTouched, Settling, PlacedBy, StandsBy, settled_in, refusal_of};

use crate::RoundError;
use crate::flushes::Flushes;
use crate::patience::Patience;
use crate::settled_looking::{SettleError, look_once};
use crate::waiting::{give_way, horizon_at, needed_by, pass_round};
use cluster_turns::{Place, Shards, Walker};
use clv_base::names::Point;
use io_model::Pace;
use machine_calls::Flier;
use std::alloc::Global;
use std::sync::Wait;
use turn_lock::Batch;

fn refused(error: RoundError) -> SettleError
    ensures { result ≡ refusal_of error }
{
    match error {
        RoundError::Down { shard } => SettleError::Unsettled { shard },
        RoundError::Worn { at } => SettleError::Worn { at },
        RoundError::Memory => SettleError::Memory,
    }
}

// Gives way while the home's horizon stands at what it was, then makes a round.
fn wait_once<M: Flier, P: Pace, R: Wait>(
    rt: &R,
    alloc: Global,
    shards: &Shards<M>,
    walker: &mut Walker<M>,
    place: &Place,
    home: u32,
    before: u64,
    flushes: &mut Flushes,
    pace: &P,
) -> Result<Option<Batch>, RoundError>
    requires standing { IsStanding shards.now walker.old place.now home }
    requires shard { home < length shards.now.locks.items }
    ensures walker { IsSameWalker walker.old walker.new }
    ensures rests { RoundRests (length shards.now.locks.items) (IsTouched place.now.touched) walker.old.number walker.old.clock walker.old.passes.items result walker.new.clock walker.new.passes.items }
    ensures stands { IsStanding shards.now walker.new place.now home }
{
    give_way(shards, walker, place, home, before);
    pass_round(rt, alloc, shards, walker, place, home, flushes, pace)
}

// One look, and a wait where it isn't decided.
fn look_and_wait<M: Flier, P: Pace, R: Wait>(
    rt: &R,
    alloc: Global,
    shards: &Shards<M>,
    walker: &mut Walker<M>,
    place: &mut Place,
    home: u32,
    before: u64,
    flushes: &mut Flushes,
    pace: &P,
) -> Result<Option<Point>, SettleError>
    requires standing { IsStanding shards.now walker.old place.old home }
    requires shard { home < length shards.now.locks.items }
    ensures walker { IsSameWalker walker.old walker.new }
    ensures turns { Settling (length shards.now.locks.items) walker.old.number walker.old.clock walker.old.passes.items home place.old result walker.new.clock walker.new.passes.items }
    ensures place { PlacedBy place.old result place.new }
    ensures stands { StandsBy shards.now walker.new place.new home result }
{
    match look_once(rt, alloc, shards, walker, place, home) {
        Ok(None) => match wait_once(
            rt, alloc, shards, walker, place, home, before, flushes, pace,
        ) {
            Ok(_) => Ok(None),
            Err(error) => Err(refused(error)),
        },
        Ok(Some(point)) => Ok(Some(point)),
        Err(error) => Err(error),
    }
}

// The horizon is read before the look.
fn try_once<M: Flier, P: Pace, R: Wait>(
    rt: &R,
    alloc: Global,
    shards: &Shards<M>,
    walker: &mut Walker<M>,
    place: &mut Place,
    home: u32,
    flushes: &mut Flushes,
    pace: &P,
) -> Result<Option<Point>, SettleError>
    requires standing { IsStanding shards.now walker.old place.old home }
    requires shard { home < length shards.now.locks.items }
    ensures walker { IsSameWalker walker.old walker.new }
    ensures turns { Settling (length shards.now.locks.items) walker.old.number walker.old.clock walker.old.passes.items home place.old result walker.new.clock walker.new.passes.items }
    ensures place { PlacedBy place.old result place.new }
    ensures stands { StandsBy shards.now walker.new place.new home result }
{
    let before = horizon_at(shards, walker, place, home);
    look_and_wait(
        rt, alloc, shards, walker, place, home, before, flushes, pace,
    )
}

/// Looks at the home, with a wait and a round after each look that finds nothing decided, until the request is. Of a session's turns it takes only
/// looks. The point is that of the entry that acknowledges it. `Aborted` comes only where a look was told that cause, and the transaction is over
/// then; `Unsettled` only where a turn of the call found that shard down: the home, or, in a round after a wait, one that the transaction touched, or
/// any where that round found each shard down, or with nothing buffered and no message, so that nothing moves without it; `Worn` only where a turn
/// would have had a stamp past the last. After these two and `Memory` the request stands as before. A shard that is down and that the transaction
/// hasn't touched ends the call only where it has waited some two seconds in such rounds, or a tenth of a second once a session has left its request
/// standing: the decision may need that shard.
pub fn settle<M: Flier, P: Pace, R: Wait>(
    rt: &R,
    alloc: Global,
    shards: &Shards<M>,
    walker: &mut Walker<M>,
    place: &mut Place,
    home: u32,
    pace: &P,
) -> Result<Point, SettleError>
    requires standing { IsStanding shards.now walker.old place.old home }
    requires shard { home < length shards.now.locks.items }
    ensures walker { IsSameWalker walker.old walker.new }
    ensures turns { Settling (length shards.now.locks.items) walker.old.number walker.old.clock walker.old.passes.items home place.old (settled_in result) walker.new.clock walker.new.passes.items }
    ensures place { PlacedBy place.old (settled_in result) place.new }
    ensures stands { StandsBy shards.now walker.new place.new home (settled_in result) }
{
    let mut patience = Patience::new();
    let mut flushes = Flushes::new(needed_by(place), home);
    for _ in rt.forever() {
        match try_once(rt, alloc, shards, walker, place, home, &mut flushes, pace) {
            Ok(Some(point)) => return Ok(point),
            Ok(None) => {}
            Err(SettleError::Unsettled { shard }) => {
                if !patience.bears(rt, shards, &needed_by(place), shard) {
                    return Err(SettleError::Unsettled { shard });
                }
            }
            Err(error) => return Err(error),
        }
    }
    unreachable!()
}
