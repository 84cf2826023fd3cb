// A part of an operation, on one shard.
ghost use Rattle.std.specs.Prelude.{◌≡◌, ◌<◌, ◌==◌, true, length, Some};
ghost use Rattle.std.specs.Map.{lookup};
ghost use Rattle.clv_base.specs.declared.names.Birth.{Birth as BirthIs};
ghost use Rattle.clv_base.specs.declared.events.Event.TheVariants.{Op as OpEvent};
ghost use Rattle.clv_base.specs.Sessions.{is_number, lies_in};
ghost use Rattle.cluster_turns.specs.Walkers.{IsSameWalker};
ghost use Rattle.session_ops.specs.Standing.{IsActive};
ghost use Rattle.session_ops.specs.Operated.{PlacedBy, answered_in};
ghost use Rattle.session_ops.specs.Parts.{Performing, StandsUnless, has_died};

use crate::{OpError, leave_if, operate};
use cluster_turns::{Place, Shards, Walker};
use clv_base::ops::{Answer, Op};
use io_model::Pace;
use machine_calls::Flier;
use std::alloc::Global;
use std::sync::Wait;

fn died(answer: &Result<Answer, OpError>) -> bool
    ensures { result ≡ has_died answer.now }
{
    match answer {
        Err(OpError::Aborted(_)) => true,
        _ => false,
    }
}

/// One operation, or part scan, on one shard, until it is answered; where it dies the transaction's other parts are dropped.
pub(crate) fn perform<M: Flier, P: Pace, R: Wait>(
    rt: &R,
    alloc: Global,
    shards: &Shards<M>,
    walker: &mut Walker<M>,
    place: &mut Place,
    shard: u32,
    nth: u64,
    op: &Op,
    pace: &P,
) -> Result<Answer, OpError>
    requires active { IsActive shards.now walker.old place.old }
    requires shard { (shard < length shards.now.locks.items) × (shard < 16) }
    requires number { is_number place.old shard nth op.now ≡ true }
    requires lies { lies_in shards.now.splits shard op.now ≡ true }
    ensures walker { IsSameWalker walker.old walker.new }
    ensures turns { (birth : BirthIs) → place.old.birth ≡ Some birth → Performing (length shards.now.locks.items) walker.old.number walker.old.clock walker.old.passes.items shard place.old (OpEvent place.old.tx birth nth (lookup (◌==◌ shard) place.old.touched) op.now) result walker.new.clock walker.new.passes.items }
    ensures place { PlacedBy shard nth op.now place.old (answered_in result) place.new }
    ensures stands { StandsUnless (has_died result) shards.now walker.new place.new }
{
    let answer = operate(rt, alloc, shards, walker, place, shard, nth, op, pace);
    let over = died(&answer);
    leave_if(rt, alloc, shards, walker, place, shard, over);
    answer
}
