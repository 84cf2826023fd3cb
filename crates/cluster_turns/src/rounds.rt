// A round over all shards, and whether all are settled after it.
ghost use Rattle.std.specs.Prelude.{◌≡◌, ◌<◌, ℕ, IsTrue, length};
ghost use Rattle.cluster_turns.specs.Walkers.{IsWalker, IsSameWalker};
ghost use Rattle.cluster_turns.specs.Rounds.{Rounds, Tended, SettledAt};

use crate::tending::{DrainError, Met, await_writer, remind, tend};
use crate::{Shards, Walker};
use io_model::Pace;
use machine_calls::{Flier, Machine};
use std::alloc::Global;
use std::sync::Wait;

// Flushes all shards and carries their messages, the shards in rising order.
fn move_all<M: Flier, P: Pace, R: Wait>(
    rt: &R,
    alloc: Global,
    shards: &Shards<M>,
    walker: &mut Walker<M>,
    pace: &P,
    met: &mut Met,
) -> Result<(), DrainError>
    requires walker { IsWalker shards.now walker.old }
    ensures walker { IsWalker shards.now walker.new × IsSameWalker walker.old walker.new }
    ensures tended { Tended (length shards.now.locks.items) walker.old.number walker.old.clock walker.old.passes.items result walker.new.clock walker.new.passes.items }
{
    for shard in 0..shards.splits.shards() {
        if let Err(error) = tend(rt, alloc, shards, walker, shard, pace, met) {
            return Err(error);
        }
    }
    Ok(())
}

// Asks for what is missing at all shards.
fn ask_all<M: Machine, R: Wait>(
    rt: &R,
    alloc: Global,
    shards: &Shards<M>,
    walker: &mut Walker<M>,
) -> Result<(), DrainError>
    requires walker { IsWalker shards.now walker.old }
    ensures walker { IsWalker shards.now walker.new × IsSameWalker walker.old walker.new }
    ensures tended { Tended (length shards.now.locks.items) walker.old.number walker.old.clock walker.old.passes.items result walker.new.clock walker.new.passes.items }
{
    for shard in 0..shards.splits.shards() {
        if let Err(error) = remind(rt, alloc, shards, walker, shard) {
            return Err(error);
        }
    }
    Ok(())
}

// Where nothing moved: sleeps until a batch is written that another walker writes, or else asks for what stayed due.
fn stand_by<M: Machine, R: Wait>(
    rt: &R,
    alloc: Global,
    shards: &Shards<M>,
    walker: &mut Walker<M>,
    met: Met,
) -> Result<(), DrainError>
    requires walker { IsWalker shards.now walker.old }
    ensures walker { IsWalker shards.now walker.new × IsSameWalker walker.old walker.new }
    ensures tended { Tended (length shards.now.locks.items) walker.old.number walker.old.clock walker.old.passes.items result walker.new.clock walker.new.passes.items }
    ensures rests { IsTrue met.moves → walker.new ≡ walker.old }
{
    if met.moves {
        return Ok(());
    }
    match met.away {
        Some((shard, batch)) => {
            await_writer(rt, shards, shard, batch);
            Ok(())
        }
        None => ask_all(rt, alloc, shards, walker),
    }
}

// One round. It asks for what is missing only where it has moved nothing, and no other walker writes a batch.
pub(crate) fn go_round<M: Flier, P: Pace, R: Wait>(
    rt: &R,
    alloc: Global,
    shards: &Shards<M>,
    walker: &mut Walker<M>,
    pace: &P,
) -> Result<(), DrainError>
    requires walker { IsWalker shards.now walker.old }
    ensures walker { IsWalker shards.now walker.new × IsSameWalker walker.old walker.new }
    ensures tended { Tended (length shards.now.locks.items) walker.old.number walker.old.clock walker.old.passes.items result walker.new.clock walker.new.passes.items }
{
    let mut met = Met::new();
    if let Err(error) = move_all(rt, alloc, shards, walker, pace, &mut met) {
        return Err(error);
    }
    stand_by(rt, alloc, shards, walker, met)
}

// Whether each shard is settled, as the walker sees it now.
pub(crate) fn are_settled<M: Machine, R: Wait>(
    rt: &R,
    shards: &Shards<M>,
    walker: &mut Walker<M>,
) -> bool
    requires walker { IsWalker shards.now walker.old }
    ensures walker { IsWalker shards.now walker.new × IsSameWalker walker.old walker.new }
    ensures looked { Rounds (length shards.now.locks.items) walker.old.number walker.old.clock walker.old.passes.items walker.new.clock walker.new.passes.items }
    ensures settled { IsTrue result → (n : ℕ) → n < length shards.now.locks.items → SettledAt n walker.new.passes.items }
{
    for shard in 0..shards.splits.shards() {
        if !shards.is_settled(rt, walker, shard) {
            return false;
        }
    }
    true
}
