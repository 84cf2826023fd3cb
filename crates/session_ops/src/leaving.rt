// Drops on all shards that a transaction touched.
ghost use Rattle.std.specs.Prelude.{◌≡◌, ◌<◌, ◌+◌, true, length};
ghost use Rattle.cluster_turns.specs.Walkers.{IsSameWalker};
ghost use Rattle.session_ops.specs.Dropped.{IsEnding, Dropping, TellsWorn, IsLeft, is_excepted, is_to_drop, worse};

use crate::dropping::drop_part;
use cluster_turns::{Place, Shards, Walker, WornClock};
use clv_base::events::Outcome;
use machine_calls::{Machine, StepError};
use std::alloc::Global;
use std::sync::Wait;

// Whether a shard is left out.
fn is_left_out(except: Option<u32>, shard: u32) -> bool
    ensures { result ≡ is_excepted except shard }
{
    match except {
        None => false,
        Some(other) => other == shard,
    }
}

// Whether a part is to be dropped on a shard.
fn is_part(place: &Place, except: Option<u32>, shard: u32) -> bool
    ensures { result ≡ is_to_drop place.now.touched except shard }
{
    place.seen(shard).is_some() && !is_left_out(except, shard)
}

// A worn turn alone is told.
fn worn_by(answer: Result<Outcome, StepError>) -> Result<(), WornClock>
    ensures { TellsWorn answer result }
{
    match answer {
        Err(StepError::Worn { at }) => Err(WornClock { at }),
        _ => Ok(()),
    }
}

// A shard's part of it.
fn drop_on<M: Machine, R: Wait>(
    rt: &R,
    alloc: Global,
    shards: &Shards<M>,
    walker: &mut Walker<M>,
    place: &mut Place,
    except: Option<u32>,
    shard: u32,
) -> Result<(), WornClock>
    requires ending { IsEnding shards.now walker.old place.old }
    requires shard { shard < length shards.now.locks.items }
    ensures walker { IsSameWalker walker.old walker.new }
    ensures drops { Dropping walker.old.number walker.old.clock walker.old.passes.items place.old.tx place.old.touched except shard (shard + 1) result walker.new.clock walker.new.passes.items }
    ensures place { IsLeft place.old place.new }
    ensures stands { IsEnding shards.now walker.new place.new }
{
    if is_part(place, except, shard) {
        let answer = drop_part(rt, alloc, shards, walker, place, shard);
        worn_by(answer)
    } else {
        Ok(())
    }
}

// The first that was worn.
fn first_worn(one: Result<(), WornClock>, other: Result<(), WornClock>) -> Result<(), WornClock>
    ensures { result ≡ worse one other }
{
    match one {
        Ok(()) => other,
        Err(worn) => Err(worn),
    }
}

/// Drops the transaction on all shards that it touched, but for the one that is left out, in rising order, each in one turn. Shards that are down or
/// have no part of it are passed over; `WornClock` comes exactly where a turn would have had a stamp past the last.
pub fn drop_parts<M: Machine, R: Wait>(
    rt: &R,
    alloc: Global,
    shards: &Shards<M>,
    walker: &mut Walker<M>,
    place: &mut Place,
    except: Option<u32>,
) -> Result<(), WornClock>
    requires ending { IsEnding shards.now walker.old place.old }
    ensures walker { IsSameWalker walker.old walker.new }
    ensures drops { Dropping walker.old.number walker.old.clock walker.old.passes.items place.old.tx place.old.touched except 0 (length shards.now.locks.items) result walker.new.clock walker.new.passes.items }
    ensures place { IsLeft place.old place.new }
    ensures stands { IsEnding shards.now walker.new place.new }
{
    let mut answer = Ok(());
    for shard in 0..shards.splits().shards() {
        let one = drop_on(rt, alloc, shards, walker, place, except, shard);
        answer = first_worn(answer, one);
    }
    answer
}
