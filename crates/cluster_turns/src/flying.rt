// The same on a walker.
ghost use Rattle.std.specs.Prelude.{◌≡◌, ◌<◌, ◌≤◌, ◌+◌, ◌^◌, true, length};
ghost use Rattle.clv_base.specs.declared.events.Event.TheVariants.{FlushOut};
ghost use Rattle.machine_calls.specs.Flights.{outcome_in};
ghost use Rattle.machine_laws.specs.Gates.{Landable};
ghost use Rattle.cluster_turns.specs.Turns.{EventTold};
ghost use Rattle.cluster_turns.specs.Walkers.{IsWalker, IsSameWalker, Walked};
ghost use Rattle.cluster_turns.specs.Flights.{FlightTold, FlightTaken, LandTold, AwayAt, KnownAt};

use crate::rest_turns::{Departure, take_off, touch_down};
use crate::{Shards, Walker};
use machine_calls::{Flier, Flight};
use std::alloc::Global;
use std::sync::Wait;

pub(crate) fn depart<M: Flier, R: Wait>(
    rt: &R,
    alloc: Global,
    shards: &Shards<M>,
    walker: &mut Walker<M>,
    shard: u32,
) -> Departure<M>
    requires walker { IsWalker shards.now walker.old }
    requires shard { shard < length shards.now.locks.items }
    ensures walker { IsWalker shards.now walker.new × IsSameWalker walker.old walker.new }
    ensures walked { Walked (EventTold walker.old.clock walker.old.number FlushOut (outcome_in result) walker.new.clock) shard walker.old.number walker.old.passes.items walker.new.passes.items }
    ensures flight { FlightTaken M.Gate.is_shut M.Gate.faults M.Gate.shard M.Gate.logs shard walker.old.number walker.new.clock walker.new.passes.items result }
{
    shards.go_out(walker.number);
    let place = shard as usize;
    let pass = walker.passes[place].take().unwrap();
    let (pass, clock, answer) = take_off(
        rt,
        alloc,
        &shards.locks[place],
        pass,
        walker.clock,
        walker.number,
    );
    walker.passes[place] = Some(pass);
    walker.clock = clock;
    answer
}

pub(crate) fn arrive<M: Flier, R: Wait>(
    rt: &R,
    shards: &Shards<M>,
    walker: &mut Walker<M>,
    shard: u32,
    flight: Flight<M::Gate>,
    pushed: bool,
)
    requires walker { IsWalker shards.now walker.old }
    requires shard { shard < length shards.now.locks.items }
    requires away { AwayAt shard walker.old.number (λ layout s. Landable pushed s flight.upto (M.Gate.faults flight.as_taken.value) (M.Gate.is_shut flight.gate) (M.Gate.faults flight.gate) (M.Gate.shard flight.gate) (M.Gate.logs flight.gate layout)) walker.old.passes.items }
    requires clock { walker.old.clock < 2 ^ 48 + 15 }
    ensures walker { IsWalker shards.now walker.new × IsSameWalker walker.old walker.new }
    ensures walked { Walked (LandTold walker.old.clock walker.old.number pushed flight.upto walker.new.clock) shard walker.old.number walker.old.passes.items walker.new.passes.items }
    ensures published { pushed ≡ true → KnownAt shard flight.upto walker.new.passes.items }
{
    let place = shard as usize;
    let pass = walker.passes[place].take().unwrap();
    let (pass, clock) = touch_down(
        rt,
        &shards.locks[place],
        pass,
        walker.clock,
        walker.number,
        flight,
        pushed,
    );
    walker.passes[place] = Some(pass);
    walker.clock = clock;
}
