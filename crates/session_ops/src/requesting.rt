// A request.
ghost use Rattle.std.specs.Prelude.{◌≡◌, ◌<◌, true, nat_lt, length, map, IfOk};
ghost use Rattle.std.specs.List.{list_all};
ghost use Rattle.clv_base.specs.FileRules.{numbers_rise};
ghost use Rattle.clv_base.specs.declared.events.Event.TheVariants.{Request};
ghost use Rattle.clv_base.specs.Sessions.{is_lowest, is_whole_now};
ghost use Rattle.cluster_turns.specs.Walkers.{IsSameWalker};
ghost use Rattle.session_ops.specs.Standing.{IsActive};
ghost use Rattle.session_ops.specs.Requested.{RequestTold, RequestStands, place_requested, is_request_outcome};

use cluster_turns::{Place, Shards, Walker};
use clv_base::events::{Event, Outcome};
use clv_base::lists::Touched;
use machine_calls::{Machine, StepError};
use std::alloc::Global;
use std::sync::Wait;

// The place follows what was answered.
fn follow(place: &mut Place, home: u32, answer: &Result<Outcome, StepError>)
    ensures { place.new ≡ place_requested home place.old answer.now }
{
    match answer {
        Ok(Outcome::Asked) => place.requested(home),
        Ok(Outcome::Dead(_)) => place.ended(),
        _ => {}
    }
}

// The event, by the touched shards.
fn ask_home<M: Machine, R: Wait>(
    rt: &R,
    alloc: Global,
    shards: &Shards<M>,
    walker: &mut Walker<M>,
    place: &mut Place,
    home: u32,
    parts: Touched,
) -> Result<Outcome, StepError>
    requires active { IsActive shards.now walker.old place.old }
    requires whole { is_whole_now place.old ≡ true }
    requires shard { home < length shards.now.locks.items }
    requires lowest { is_lowest home place.old.touched ≡ true }
    requires parts { parts ≡ place.old.touched }
    requires rise { numbers_rise (map (λ t. t.0) place.old.touched) ≡ true }
    requires low { list_all (λ t. nat_lt t.0 16) place.old.touched ≡ true }
    ensures walker { IsSameWalker walker.old walker.new }
    ensures turn { RequestTold walker.old.number walker.old.clock walker.old.passes.items home (Request place.old.tx place.old.touched) result walker.new.clock walker.new.passes.items }
    ensures outcome { IfOk result (λ o. is_request_outcome o ≡ true) }
    ensures place { place.new ≡ place_requested home place.old result }
    ensures stands { RequestStands shards.now walker.new place.new home result }
{
    let event = Event::Request {
        tx: place.tx(),
        parts,
    };
    let answer = shards.session_event(rt, alloc, walker, home, event);
    follow(place, home, &answer);
    answer
}

/// Makes the request of the active transaction, whose goings back were whole, at the lowest shard that it touched, in one turn; for want of memory in none. After `Asked` it stands
/// there, after `Dead` the transaction is over, after every other answer it is active.
pub fn request<M: Machine, R: Wait>(
    rt: &R,
    alloc: Global,
    shards: &Shards<M>,
    walker: &mut Walker<M>,
    place: &mut Place,
    home: u32,
) -> Result<Outcome, StepError>
    requires active { IsActive shards.now walker.old place.old }
    requires whole { is_whole_now place.old ≡ true }
    requires shard { home < length shards.now.locks.items }
    requires lowest { is_lowest home place.old.touched ≡ true }
    ensures walker { IsSameWalker walker.old walker.new }
    ensures turn { RequestTold walker.old.number walker.old.clock walker.old.passes.items home (Request place.old.tx place.old.touched) result walker.new.clock walker.new.passes.items }
    ensures outcome { IfOk result (λ o. is_request_outcome o ≡ true) }
    ensures place { place.new ≡ place_requested home place.old result }
    ensures stands { RequestStands shards.now walker.new place.new home result }
{
    match place.touched(alloc) {
        Ok(parts) => ask_home(rt, alloc, shards, walker, place, home, parts),
        Err(_) => Err(StepError::Memory),
    }
}
