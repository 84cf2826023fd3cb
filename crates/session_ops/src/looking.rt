// A look at a request.
ghost use Rattle.std.specs.Prelude.{◌≡◌, ◌<◌, true, length, IfOk};
ghost use Rattle.clv_base.specs.declared.events.Event.TheVariants.{Look};
ghost use Rattle.cluster_turns.specs.Walkers.{IsSameWalker};
ghost use Rattle.session_ops.specs.Standing.{AskTold};
ghost use Rattle.session_ops.specs.Requested.{IsStanding};
ghost use Rattle.session_ops.specs.Looked.{LookStands, place_looked, is_look_outcome};

use cluster_turns::{Place, Shards, Walker};
use clv_base::events::{Event, Outcome};
use machine_calls::{Machine, StepError};
use std::alloc::Global;
use std::sync::Wait;

// The place follows what was answered.
fn follow(place: &mut Place, answer: &Result<Outcome, StepError>)
    ensures { place.new ≡ place_looked place.old answer.now }
{
    match answer {
        Ok(Outcome::Acknowledged) => place.told(),
        Ok(Outcome::Aborted(_)) => place.refused(),
        _ => {}
    }
}

/// Looks at the home how the request was decided, in one turn. After `Acknowledged` the transaction is committed, after `Aborted` it is over, after every
/// other answer its request stands.
pub fn look<M: Machine, R: Wait>(
    rt: &R,
    alloc: Global,
    shards: &Shards<M>,
    walker: &mut Walker<M>,
    place: &mut Place,
    home: u32,
) -> Result<Outcome, StepError>
    requires standing { IsStanding shards.now walker.old place.old home }
    requires shard { home < length shards.now.locks.items }
    ensures walker { IsSameWalker walker.old walker.new }
    ensures turn { AskTold walker.old.number walker.old.clock walker.old.passes.items home (Look place.old.tx) result walker.new.clock walker.new.passes.items }
    ensures outcome { IfOk result (λ o. is_look_outcome o ≡ true) }
    ensures place { place.new ≡ place_looked place.old result }
    ensures stands { LookStands shards.now walker.new place.new home result }
{
    let event = Event::Look { tx: place.tx() };
    let answer = shards.session_event(rt, alloc, walker, home, event);
    follow(place, &answer);
    answer
}
