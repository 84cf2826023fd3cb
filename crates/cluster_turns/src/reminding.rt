// What is still missing.
ghost use Rattle.std.specs.Prelude.{◌≡◌, ◌<◌, length, Result};
ghost use Rattle.clv_base.specs.declared.events.Event.TheVariants.{Remind};
ghost use Rattle.clv_base.specs.declared.events.Outcome.{Outcome as OutcomeIs};
ghost use Rattle.machine_calls.specs.declared.machine.StepError.{StepError as StepErrorIs};
ghost use Rattle.cluster_turns.specs.Turns.{EventTold};
ghost use Rattle.cluster_turns.specs.Walkers.{IsWalker, IsSameWalker, Walked};
ghost use Rattle.cluster_turns.specs.Reminded.{reminded_by};

use crate::carrying::{CarryError, refused};
use crate::{Shards, Walker};
use clv_base::events::{Event, Outcome};
use machine_calls::{Machine, StepError};
use std::alloc::Global;
use std::sync::Wait;

/// Whether anything was missing.
#[derive(Clone, Copy, PartialEq, Eq)]
pub enum Reminding {
    /// So many messages were put in the outbox.
    Reminded(usize),
    Nothing,
}

fn told_of(shard: u32, answer: Result<Outcome, StepError>) -> Result<Reminding, CarryError>
    ensures { result ≡ reminded_by shard answer }
{
    match answer {
        Ok(outcome) => match outcome {
            Outcome::Reminded(count) => Ok(Reminding::Reminded(count)),
            Outcome::Nothing => Ok(Reminding::Nothing),
            _ => Err(CarryError::Down { shard }),
        },
        Err(error) => Err(refused(error)),
    }
}

/// Asks again for what a shard still misses.
pub fn remind_once<M: Machine, R: Wait>(
    rt: &R,
    alloc: Global,
    shards: &Shards<M>,
    walker: &mut Walker<M>,
    shard: u32,
) -> Result<Reminding, CarryError>
    requires walker { IsWalker shards.now walker.old }
    requires shard { shard < length shards.now.locks.items }
    ensures walker { IsWalker shards.now walker.new × IsSameWalker walker.old walker.new }
    ensures reminded { (r : Result OutcomeIs StepErrorIs) × (result ≡ reminded_by shard r) × Walked (EventTold walker.old.clock walker.old.number Remind r walker.new.clock) shard walker.old.number walker.old.passes.items walker.new.passes.items }
{
    let answer = shards.event(rt, alloc, walker, shard, Event::Remind);
    told_of(shard, answer)
}
