// Worlds, step by step.
ghost use Rattle.std.specs.Prelude.{◌≡◌, ℕ, Bool, true, IfOk, OnOk};
ghost use Rattle.std.specs.List.{AllByRecursion};
ghost use Rattle.clv_base.specs.Core.{new_world};
ghost use Rattle.clv_base.specs.History.{Legal};
ghost use Rattle.clv_base.specs.Shards.{shard_count, are_splits};
ghost use Rattle.journal_laws.specs.Worlds.{empty_logs, logs_now};
ghost use Rattle.headline_laws.specs.Promise.{Promised};
ghost use Rattle.clv_base.specs.Runs.{run_events as world_after};
ghost use Rattle.crash_laws.specs.Running.{run_step};
ghost use Rattle.interleaving_core.specs.Sound.{as_world, IsSeat, IsSound};

use crate::moving::{has_rival, make_entry};
use crate::offering::is_offered;
use crate::placing::put_entry;
use crate::world::World;
use crate::{ListGate, Seat, clock_of, open};
use clv_base::events::CoreStep;
use clv_base::splits::Splits;
use crash_laws::run_worlds::{logs_stay_in_order, worlds_keep_promise};
use journal_laws::statements::run_events_is_legal;
use machine_calls::{Flier, Machine, Maker, Restarter};
use std::alloc::{AllocError, Global};

// All shards as they open empty logs. An `Err` is want of memory.
fn begin<M: Maker + Machine<Gate = ListGate>>(
    alloc: Global,
    splits: &Splits,
) -> Result<World<M>, AllocError>
    ensures new { IfOk result (λ world. as_world M.shard world ≡ new_world (shard_count splits.now)) }
    ensures seats { IfOk result (λ world. AllByRecursion (IsSeat M.shard M.gate) world.seats.items) }
{
    let count = splits.shards();
    let mut seats: Vec<Seat<M>> = Vec::new(alloc);
    let history = Vec::new(alloc);
    if seats.reserve(count as usize).is_err() {
        let world = World { seats, history };
        world.into_history();
        return Err(AllocError);
    }
    for shard in 0..count {
        match open(alloc, shard) {
            Ok(seat) => seats.push_reserved(seat),
            Err(error) => {
                let world = World { seats, history };
                world.into_history();
                return Err(error);
            }
        }
    }
    Ok(World { seats, history })
}

// One step of a world.
fn advance<M: Flier + Restarter + Machine<Gate = ListGate>>(
    alloc: Global,
    splits: &Splits,
    world: &mut World<M>,
    made: &CoreStep,
) -> Result<(), AllocError>
    requires splits { are_splits splits.now ≡ true }
    requires sound { IsSound M.shard M.gate splits.now world.old }
    ensures step { OnOk result (as_world M.shard world.new ≡ run_step splits.now (as_world M.shard world.old) made.now) }
    ensures sound { OnOk result (IsSound M.shard M.gate splits.now world.new) }
{
    logs_stay_in_order();
    let place = made.shard as usize;
    if place >= world.seats.len() {
        return Ok(());
    }
    let clock = clock_of(made.walker, world.history.as_slice());
    let history = world.history.as_slice();
    if !is_offered(alloc, splits, history, made.walker, made.shard, &made.event)? {
        return Ok(());
    }
    if has_rival(&world.seats[place].machine, &made.event) {
        return Ok(());
    }
    let Some(entry) = make_entry(&mut world.seats[place], alloc, clock, made)? else {
        return Ok(());
    };
    put_entry(&mut world.history, (made.shard, entry))
}

/// Runs a list of steps over machines that open empty logs under these splits. Of a flush's end `kept` tells whether the batch is durable, and of a restart
/// whether it finds the batch in flight. Takes time in the steps times the entries: each step looks through those so far.
///
/// A step makes exactly what the definitions answer, where they allow it: the event is possible in the shard's state, a message was sent before, the walker's
/// session may make it, and no part of another transaction with an operation's birth is active there. Else, and where the answer is quiet or the clock is worn,
/// it leaves the world as it was. An `Err` is want of memory, which may come at any moment.
pub fn run_events<M: Maker + Flier + Restarter + Machine<Gate = ListGate>>(
    alloc: Global,
    splits: &Splits,
    list: &[CoreStep],
) -> Result<World<M>, AllocError>
    ensures steps { IfOk result (λ world. as_world M.shard world ≡ world_after splits.now list.now) }

    // Its history is legal, from empty logs to those that any choice leaves.
    ensures legal { IfOk result (λ world. (left : ℕ → Bool) → Legal splits.now (empty_logs (shard_count splits.now)) world.history.items (logs_now splits.now (as_world M.shard world) left)) }

    // And it has the whole promise, whatever a crash keeps of what is in flight.
    ensures promise { IfOk result (λ world. (left choice : ℕ → Bool) → Promised splits.now (empty_logs (shard_count splits.now)) world.history.items (logs_now splits.now (as_world M.shard world) left) choice) }
{
    run_events_is_legal();
    worlds_keep_promise();
    let _keys = splits.as_slice();
    let mut world = begin(alloc, splits)?;
    for made in list {
        if advance(alloc, splits, &mut world, made).is_err() {
            world.into_history();
            return Err(AllocError);
        }
    }
    Ok(world)
}
