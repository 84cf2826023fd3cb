// One event on one shard.
ghost use Rattle.std.specs.Prelude.{◌≡◌, ◌<◌, ◌≤◌, ◌==◌, true, length, IfOk};
ghost use Rattle.std.specs.Map.{lookup};
ghost use Rattle.clv_base.specs.declared.names.Birth.{Birth as BirthIs};
ghost use Rattle.clv_base.specs.declared.events.Event.TheVariants.{Op as OpEvent};
ghost use Rattle.clv_base.specs.Sessions.{SessionState, is_number, lies_in};
ghost use Rattle.cluster_turns.specs.Notes.{with_note};
ghost use Rattle.cluster_turns.specs.Walkers.{IsSameWalker};
ghost use Rattle.session_ops.specs.Standing.{IsActive, TryTold, StandsAfter, place_after, is_op_outcome};

use cluster_turns::{Place, Shards, Walker};
use clv_base::events::Outcome;
use clv_base::ops::Op;
use machine_calls::{Machine, StepError};
use std::alloc::Global;
use std::sync::Wait;

// The place, in which the operation was noted, follows what was answered.
fn follow(place: &mut Place, shard: u32, nth: u64, op: &Op, answer: &Result<Outcome, StepError>)
    requires shard { shard < 16 }
    requires number { place.old.nth ≤ nth }
    ensures { (p : SessionState) → place.old ≡ with_note shard nth op.now p → place.new ≡ place_after shard nth op.now p answer.now }
{
    match answer {
        Ok(Outcome::Answered { answer, epoch }) => place.answered(shard, nth, op, answer, *epoch),
        Ok(Outcome::Dead(_)) => place.died(shard, nth, op),
        _ => place.unnote(op),
    }
}

/// One operation, or part scan, of the active transaction on one shard, in one turn. Its entry, if it makes one, goes on the session's; the place is the
/// definitions' after it. After `Dead` the transaction is over, after every other answer it is active. Where there is no memory to note what it may write
/// it takes no turn.
pub fn ask<M: Machine, R: Wait>(
    rt: &R,
    alloc: Global,
    shards: &Shards<M>,
    walker: &mut Walker<M>,
    place: &mut Place,
    shard: u32,
    nth: u64,
    op: &Op,
) -> Result<Outcome, StepError>
    requires active { IsActive shards.now walker.old place.old }
    requires shard { (shard < length shards.now.locks.items) × (shard < 16) }
    requires number { is_number place.old shard nth op.now ≡ true }
    requires lies { lies_in shards.now.splits shard op.now ≡ true }
    ensures walker { IsSameWalker walker.old walker.new }
    ensures turn { (birth : BirthIs) → place.old.birth ≡ Some birth → TryTold walker.old.number walker.old.clock walker.old.passes.items shard (OpEvent place.old.tx birth nth (lookup (◌==◌ shard) place.old.touched) op.now) result walker.new.clock walker.new.passes.items }
    ensures outcome { IfOk result (λ o. is_op_outcome o ≡ true) }
    ensures place { place.new ≡ place_after shard nth op.now place.old result }
    ensures stands { StandsAfter shard shards.now walker.new place.new result }
{
    let event = place.op(shard, nth, op);
    match place.note(shard, nth, op) {
        Ok(()) => {
            let answer = shards.session_event(rt, alloc, walker, shard, event);
            follow(place, shard, nth, op, &answer);
            answer
        }
        Err(_) => Err(StepError::Memory),
    }
}
