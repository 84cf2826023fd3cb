// A shard's part of a going back.
ghost use Rattle.std.specs.Prelude.{◌≡◌, ◌⊎◌, ◌<◌, ◌^◌, true, suc, length, IfOk, Ok, Err};
ghost use Rattle.clv_base.specs.declared.events.Outcome.TheVariants.{Rolled};
ghost use Rattle.clv_base.specs.Backs.{stands_for_back};
ghost use Rattle.machine_calls.specs.declared.machine.StepError.TheVariants.{Memory};
ghost use Rattle.cluster_turns.specs.Notes.{is_noted};
ghost use Rattle.cluster_turns.specs.Walkers.{IsSameWalker};
ghost use Rattle.session_ops.specs.Standing.{IsActive};
ghost use Rattle.session_ops.specs.Parts.{StandsUnless};
ghost use Rattle.session_ops.specs.WentBack.{MayRoll, RollAsked, Rolling, RollIf, PastBy, StandsBack, place_back, is_back_outcome, back_as, has_died};

use crate::leave_if;
use cluster_turns::{Place, Shards, Walker};
use clv_base::causes::AbortCause;
use clv_base::events::Outcome;
use machine_calls::{Machine, StepError};
use std::alloc::Global;
use std::sync::Wait;

/// Why a going back wasn't done.
#[derive(Clone, Copy, PartialEq, Eq)]
pub enum BackError {
    /// The transaction died of it.
    Aborted(AbortCause),
    /// This shard was found down. The transaction stays active, and can't commit any more.
    Down { shard: u32 },
    /// On this shard it needed a stamp past the last. So it is then.
    Worn { shard: u32, at: u64 },
}

// The place follows what was answered.
fn follow(place: &mut Place, shard: u32, nth: u64, upto: u64, answer: &Result<Outcome, StepError>)
    requires number { (nth ≡ place.old.nth) ⊎ (nth ≡ suc place.old.nth) }
    requires stands { nth ≡ suc place.old.nth → stands_for_back nth upto place.old.backs ≡ true }
    ensures { place.new ≡ place_back shard nth upto place.old answer.now }
{
    match answer {
        Ok(Outcome::Rolled) => place.rolled(shard, nth, upto),
        Ok(Outcome::Dead(_)) => place.died_back(shard, nth, upto),
        _ => {}
    }
}

// The event, in one turn.
fn roll<M: Machine, R: Wait>(
    rt: &R,
    alloc: Global,
    shards: &Shards<M>,
    walker: &mut Walker<M>,
    place: &mut Place,
    shard: u32,
    nth: u64,
    upto: u64,
) -> Result<Outcome, StepError>
    requires active { IsActive shards.now walker.old place.old }
    requires shard { shard < length shards.now.locks.items }
    requires may { MayRoll place.old shard nth upto }
    ensures walker { IsSameWalker walker.old walker.new }
    ensures turn { RollAsked walker.old.number walker.old.clock walker.old.passes.items place.old nth upto shard result walker.new.clock walker.new.passes.items }
    ensures outcome { IfOk result (λ o. is_back_outcome o ≡ true) }
    ensures memory { result ≡ Err Memory → ⊥ }
    ensures stamped { result ≡ Ok Rolled → (walker.old.clock < walker.new.clock) × (walker.new.clock < 2 ^ 48) }
    ensures place { place.new ≡ place_back shard nth upto place.old result }
    ensures stands { StandsBack shard shards.now walker.new place.new result }
{
    let event = place.roll_to(shard, nth, upto);
    let answer = shards.session_event(rt, alloc, walker, shard, event);
    follow(place, shard, nth, upto, &answer);
    answer
}

// What its answer is to the going back.
fn back_by(shard: u32, answer: Result<Outcome, StepError>) -> Result<(), BackError>
    requires outcome { IfOk answer (λ o. is_back_outcome o ≡ true) }
    requires memory { answer ≡ Err Memory → ⊥ }
    ensures { result ≡ back_as shard answer }
{
    match answer {
        Ok(Outcome::Rolled) => Ok(()),
        Ok(Outcome::Dead(cause)) => Err(BackError::Aborted(cause)),
        Ok(_) => Err(BackError::Down { shard }),
        Err(StepError::Worn { at }) => Err(BackError::Worn { shard, at }),
        Err(StepError::Memory) => unreachable!(),
    }
}

fn died(answer: &Result<(), BackError>) -> bool
    ensures { result ≡ has_died answer.now }
{
    match answer {
        Err(BackError::Aborted(_)) => true,
        _ => false,
    }
}

/// Takes what the transaction's later operations wrote on a shard away, in one turn; where it dies of it, its other parts are dropped.
pub(crate) fn roll_on<M: Machine, R: Wait>(
    rt: &R,
    alloc: Global,
    shards: &Shards<M>,
    walker: &mut Walker<M>,
    place: &mut Place,
    shard: u32,
    nth: u64,
    upto: u64,
) -> Result<(), BackError>
    requires active { IsActive shards.now walker.old place.old }
    requires shard { shard < length shards.now.locks.items }
    requires may { MayRoll place.old shard nth upto }
    ensures walker { IsSameWalker walker.old walker.new }
    ensures told { Rolling (length shards.now.locks.items) walker.old.number walker.old.clock walker.old.passes.items place.old nth upto shard result walker.new.clock walker.new.passes.items place.new }
    ensures past { PastBy shard place.old result walker.new }
    ensures stands { StandsUnless (has_died result) shards.now walker.new place.new }
{
    let answer = roll(rt, alloc, shards, walker, place, shard, nth, upto);
    let ended = back_by(shard, answer);
    let over = died(&ended);
    leave_if(rt, alloc, shards, walker, place, shard, over);
    ended
}

/// The same where a later operation's write is noted on the shard; else nothing is done.
pub(crate) fn roll_if_noted<M: Machine, R: Wait>(
    rt: &R,
    alloc: Global,
    shards: &Shards<M>,
    walker: &mut Walker<M>,
    place: &mut Place,
    shard: u32,
    nth: u64,
    upto: u64,
) -> Result<(), BackError>
    requires active { IsActive shards.now walker.old place.old }
    requires shard { shard < length shards.now.locks.items }
    requires may { is_noted shard upto place.old.written ≡ true → MayRoll place.old shard nth upto }
    ensures walker { IsSameWalker walker.old walker.new }
    ensures told { RollIf (is_noted shard upto place.old.written) (length shards.now.locks.items) walker.old place.old nth upto shard result walker.new place.new }
    ensures past { PastBy shard place.old result walker.new }
    ensures stands { StandsUnless (has_died result) shards.now walker.new place.new }
{
    if place.is_noted(shard, upto) {
        return roll_on(rt, alloc, shards, walker, place, shard, nth, upto);
    }
    Ok(())
}
