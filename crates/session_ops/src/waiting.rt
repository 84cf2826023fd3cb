// Waiting for a decision.
ghost use Rattle.std.specs.Prelude.{ℕ, ◌<◌, length, Ok};
ghost use Rattle.cluster_turns.specs.Walkers.{IsSameWalker};
ghost use Rattle.session_ops.specs.Rounds.{Rounded, RoundRests, IsOwn};
ghost use Rattle.session_ops.specs.Requested.{IsStanding};
ghost use Rattle.session_ops.specs.Settled.{IsTouched};

use crate::RoundError;
use crate::flushes::Flushes;
use crate::rounds::round_for;
use cluster_turns::{Place, Shards, Walker};
use crossbeam_utils::Backoff;
use io_model::Pace;
use machine_calls::{Flier, Machine};
use std::alloc::Global;
use std::array;
use std::sync::Wait;
use turn_lock::Batch;

// What the walker knows to be durable at the home.
pub(crate) fn horizon_at<M: Machine>(
    shards: &Shards<M>,
    walker: &mut Walker<M>,
    place: &Place,
    home: u32,
) -> u64
    requires standing { IsStanding shards.now walker.old place.now home }
    requires shard { home < length shards.now.locks.items }
    ensures walker { IsSameWalker walker.old walker.new }
    ensures round { Rounded walker.old.number walker.old.clock walker.old.passes.items (Ok result) walker.new.clock walker.new.passes.items }
    ensures stands { IsStanding shards.now walker.new place.now home }
{
    let _place = place;
    shards.horizon_of(walker, home)
}

// How often the horizon is read while it stands still.
const READS: u32 = 4;

// Gives way while no more is durable at the home than before.
pub(crate) fn give_way<M: Machine>(
    shards: &Shards<M>,
    walker: &mut Walker<M>,
    place: &Place,
    home: u32,
    before: u64,
)
    requires standing { IsStanding shards.now walker.old place.now home }
    requires shard { home < length shards.now.locks.items }
    ensures walker { IsSameWalker walker.old walker.new }
    ensures round { Rounded walker.old.number walker.old.clock walker.old.passes.items (Ok result) walker.new.clock walker.new.passes.items }
    ensures stands { IsStanding shards.now walker.new place.now home }
{
    let backoff = Backoff::new();
    for _ in 0..READS {
        if horizon_at(shards, walker, place, home) != before {
            return;
        }
        backoff.snooze();
    }
}

// The shards that a request needs: those that its transaction touched.
pub(crate) fn needed_by(place: &Place) -> [bool; 16]
    ensures { (n : ℕ) → IsOwn result n → IsTouched place.now.touched n }
{
    array::from_fn(|shard| place.seen(shard as u32).is_some())
}

// A round of a session whose request stands. It ends at a shard that the transaction touched, or where each shard is down or at rest.
pub(crate) fn pass_round<M: Flier, P: Pace, R: Wait>(
    rt: &R,
    alloc: Global,
    shards: &Shards<M>,
    walker: &mut Walker<M>,
    place: &Place,
    home: u32,
    flushes: &mut Flushes,
    pace: &P,
) -> Result<Option<Batch>, RoundError>
    requires standing { IsStanding shards.now walker.old place.now home }
    requires shard { home < length shards.now.locks.items }
    ensures walker { IsSameWalker walker.old walker.new }
    ensures rests { RoundRests (length shards.now.locks.items) (IsTouched place.now.touched) walker.old.number walker.old.clock walker.old.passes.items result walker.new.clock walker.new.passes.items }
    ensures stands { IsStanding shards.now walker.new place.now home }
{
    let own = needed_by(place);
    round_for(rt, alloc, shards, walker, home, flushes, &own, pace)
}
