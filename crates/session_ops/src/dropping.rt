// A drop on one shard.
ghost use Rattle.std.specs.Prelude.{◌≡◌, ◌<◌, true, length, IfOk};
ghost use Rattle.clv_base.specs.declared.events.Event.TheVariants.{Drop};
ghost use Rattle.cluster_turns.specs.Walkers.{IsSameWalker};
ghost use Rattle.session_ops.specs.Standing.{AskTold};
ghost use Rattle.session_ops.specs.Dropped.{IsEnding, place_dropped, is_drop_outcome};
ghost use Rattle.clv_base.specs.Sessions.{after_drop};

use cluster_turns::{Place, Shards, Stage, Walker};
use clv_base::events::{Event, Outcome};
use machine_calls::{Machine, StepError};
use std::alloc::Global;
use std::sync::Wait;

// A transaction that may go on has ended.
fn end(place: &mut Place)
    ensures { place.new ≡ record place.old { phase = after_drop place.old.phase } }
{
    match place.stage() {
        Stage::Touching => place.ended(),
        _ => {}
    }
}

// The place follows what was answered.
fn follow(place: &mut Place, answer: &Result<Outcome, StepError>)
    ensures { place.new ≡ place_dropped place.old answer.now }
{
    match answer {
        Ok(Outcome::Dropped) => end(place),
        _ => {}
    }
}

/// Drops the transaction's part on a shard, in one turn. After `Dropped` it has no operation any more; after each answer it may be dropped on other shards.
pub fn drop_part<M: Machine, R: Wait>(
    rt: &R,
    alloc: Global,
    shards: &Shards<M>,
    walker: &mut Walker<M>,
    place: &mut Place,
    shard: u32,
) -> Result<Outcome, StepError>
    requires ending { IsEnding shards.now walker.old place.old }
    requires shard { shard < length shards.now.locks.items }
    ensures walker { IsSameWalker walker.old walker.new }
    ensures turn { AskTold walker.old.number walker.old.clock walker.old.passes.items shard (Drop place.old.tx) result walker.new.clock walker.new.passes.items }
    ensures outcome { IfOk result (λ o. is_drop_outcome o ≡ true) }
    ensures place { place.new ≡ place_dropped place.old result }
    ensures stands { IsEnding shards.now walker.new place.new }
{
    let event = Event::Drop { tx: place.tx() };
    let answer = shards.session_event(rt, alloc, walker, shard, event);
    follow(place, &answer);
    answer
}
