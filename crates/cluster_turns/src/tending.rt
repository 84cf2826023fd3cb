// The turns of a round on one shard.
ghost use Rattle.std.specs.Prelude.{◌≡◌, ◌<◌, length};
ghost use Rattle.cluster_turns.specs.Walkers.{IsWalker, IsSameWalker};
ghost use Rattle.cluster_turns.specs.Rounds.{CarriedAll, Tended, flush_refusal, carry_refusal};

use crate::{
    Carry, CarryError, FlushError, Flushed, Shards, Walker, carry_once, flush_once, remind_once,
};
use io_model::Pace;
use machine_calls::{Flier, Machine};
use std::alloc::Global;
use std::sync::Wait;
use turn_lock::Batch;

/// Why a drain ended before all was settled.
#[derive(Clone, Copy, PartialEq, Eq)]
pub enum DrainError {
    /// A turn found the shard down, or its flush failed.
    Down { shard: u32 },
    /// An event needed the stamp `at`, at which stamps end.
    Worn { at: u64 },
    Memory,
}

fn unflushed(shard: u32, error: FlushError) -> DrainError
    ensures { result ≡ flush_refusal shard error }
{
    match error {
        FlushError::Failed | FlushError::Down => DrainError::Down { shard },
        FlushError::Worn { at } => DrainError::Worn { at },
        FlushError::Memory => DrainError::Memory,
    }
}

fn undelivered(error: CarryError) -> DrainError
    ensures { result ≡ carry_refusal error }
{
    match error {
        CarryError::Down { shard } => DrainError::Down { shard },
        CarryError::Worn { at } => DrainError::Worn { at },
        CarryError::Memory => DrainError::Memory,
    }
}

// What a round has met so far.
#[derive(Clone, Copy)]
pub(crate) struct Met {
    // A batch was written, or a message carried.
    pub(crate) moves: bool,
    // A shard of which another walker writes this batch.
    pub(crate) away: Option<(u32, Batch)>,
}

impl Met {
    pub(crate) fn new() -> Self {
        Met {
            moves: false,
            away: None,
        }
    }

    fn note(&mut self, flushed: Flushed) {
        if let Flushed::Durable(_) = flushed {
            self.moves = true;
        }
    }
}

// Flushes a shard once.
fn flush_now<M: Flier, P: Pace, R: Wait>(
    rt: &R,
    alloc: Global,
    shards: &Shards<M>,
    walker: &mut Walker<M>,
    shard: u32,
    pace: &P,
    met: &mut Met,
) -> Result<(), DrainError>
    requires walker { IsWalker shards.now walker.old }
    requires shard { shard < length shards.now.locks.items }
    ensures walker { IsWalker shards.now walker.new × IsSameWalker walker.old walker.new }
    ensures tended { Tended (length shards.now.locks.items) walker.old.number walker.old.clock walker.old.passes.items result walker.new.clock walker.new.passes.items }
{
    match flush_once(rt, alloc, shards, walker, shard, pace) {
        Ok(flushed) => {
            met.note(flushed);
            Ok(())
        }
        Err(error) => Err(unflushed(shard, error)),
    }
}

// Flushes a shard once, unless another walker writes a batch of it. The batch gate is held until this one is written.
fn flush<M: Flier, P: Pace, R: Wait>(
    rt: &R,
    alloc: Global,
    shards: &Shards<M>,
    walker: &mut Walker<M>,
    shard: u32,
    pace: &P,
    met: &mut Met,
) -> Result<(), DrainError>
    requires walker { IsWalker shards.now walker.old }
    requires shard { shard < length shards.now.locks.items }
    ensures walker { IsWalker shards.now walker.new × IsSameWalker walker.old walker.new }
    ensures tended { Tended (length shards.now.locks.items) walker.old.number walker.old.clock walker.old.passes.items result walker.new.clock walker.new.passes.items }
{
    let Some(gate) = shards.batches.get(shard as usize) else {
        return flush_now(rt, alloc, shards, walker, shard, pace, met);
    };
    match gate.try_write() {
        Ok(writer) => {
            let flushed = flush_now(rt, alloc, shards, walker, shard, pace, met);
            drop(writer);
            flushed
        }
        Err(batch) => {
            met.away = Some((shard, batch));
            Ok(())
        }
    }
}

// Sleeps until whoever writes a batch of the shard has it written.
pub(crate) fn await_writer<M: Machine, R: Wait>(
    rt: &R,
    shards: &Shards<M>,
    shard: u32,
    batch: Batch,
) {
    if let Some(gate) = shards.batches.get(shard as usize) {
        gate.sleep(rt, batch);
    }
}

// Carries messages out of a shard's outbox until it is empty.
fn carry_all<M: Machine, R: Wait>(
    rt: &R,
    alloc: Global,
    shards: &Shards<M>,
    walker: &mut Walker<M>,
    from: u32,
    met: &mut Met,
) -> Result<(), CarryError>
    requires walker { IsWalker shards.now walker.old }
    requires shard { from < length shards.now.locks.items }
    ensures walker { IsWalker shards.now walker.new × IsSameWalker walker.old walker.new }
    ensures carried { CarriedAll (length shards.now.locks.items) walker.old.number from walker.old.clock walker.old.passes.items result walker.new.clock walker.new.passes.items }
{
    for _ in rt.forever() {
        match carry_once(rt, alloc, shards, walker, from) {
            Ok(Carry::Carried) => met.moves = true,
            Ok(Carry::Nothing) => return Ok(()),
            Err(error) => return Err(error),
        }
    }
    unreachable!()
}

// Flushes a shard once and carries all its messages.
pub(crate) fn tend<M: Flier, P: Pace, R: Wait>(
    rt: &R,
    alloc: Global,
    shards: &Shards<M>,
    walker: &mut Walker<M>,
    shard: u32,
    pace: &P,
    met: &mut Met,
) -> Result<(), DrainError>
    requires walker { IsWalker shards.now walker.old }
    requires shard { shard < length shards.now.locks.items }
    ensures walker { IsWalker shards.now walker.new × IsSameWalker walker.old walker.new }
    ensures tended { Tended (length shards.now.locks.items) walker.old.number walker.old.clock walker.old.passes.items result walker.new.clock walker.new.passes.items }
{
    if let Err(error) = flush(rt, alloc, shards, walker, shard, pace, met) {
        return Err(error);
    }
    if let Err(error) = carry_all(rt, alloc, shards, walker, shard, met) {
        return Err(undelivered(error));
    }
    Ok(())
}

// Asks once for what a shard misses.
pub(crate) fn remind<M: Machine, R: Wait>(
    rt: &R,
    alloc: Global,
    shards: &Shards<M>,
    walker: &mut Walker<M>,
    shard: u32,
) -> Result<(), DrainError>
    requires walker { IsWalker shards.now walker.old }
    requires shard { shard < length shards.now.locks.items }
    ensures walker { IsWalker shards.now walker.new × IsSameWalker walker.old walker.new }
    ensures tended { Tended (length shards.now.locks.items) walker.old.number walker.old.clock walker.old.passes.items result walker.new.clock walker.new.passes.items }
{
    match remind_once(rt, alloc, shards, walker, shard) {
        Ok(_) => Ok(()),
        Err(error) => Err(undelivered(error)),
    }
}
