// The parts of a round on one shard.
ghost use Rattle.std.specs.Prelude.{◌≡◌, ◌<◌, true, length, None};
ghost use Rattle.cluster_turns.specs.Walkers.{IsWalker, IsSameWalker};
ghost use Rattle.session_ops.specs.Rounds.{IsOwn, IsAlone, IsQuiet, PassedOver, Passed, EndsAt, Whatever, FlushedOn, CarriedOn, CarriedAs, met_flush};

use cluster_turns::{
    Carry, CarryError, FlushError, Flushed, Shards, Walker, carry_once, flush_once, remind_once,
};
use io_model::Pace;
use machine_calls::{Flier, Machine};
use std::alloc::Global;
use std::sync::Wait;
use turn_lock::Batch;

/// Why a round ended early.
#[derive(Clone, Copy, PartialEq, Eq)]
pub enum RoundError {
    /// A turn found the shard down, or its flush failed.
    Down { shard: u32 },
    Worn { at: u64 },
    Memory,
}

// What a round has met so far.
#[derive(Clone, Copy)]
pub(crate) struct Met {
    // A batch was written, or another walker has the gate, or a message was carried.
    pub(crate) moves: bool,
    // A shard of which another walker writes this batch.
    pub(crate) away: Option<(u32, Batch)>,
    // The first shard that was found down and passed over.
    pub(crate) down: Option<u32>,
}

// Whether the caller needs a shard.
pub(crate) fn is_own(own: &[bool; 16], shard: u32) -> bool
    ensures own { result ≡ true → IsOwn own.now shard }
    ensures all { IsOwn own.now shard → result ≡ true }
{
    match own.get(shard as usize) {
        Some(needs) => *needs,
        None => false,
    }
}

impl Met {
    pub(crate) fn new() -> Self
        ensures none { result.down ≡ None }
        ensures quiet { IsQuiet result }
    {
        Met {
            moves: false,
            away: None,
            down: None,
        }
    }

    // A shard was found down: that ends the round where the caller needs it, else it is passed over.
    fn pass_over(&mut self, own: &[bool; 16], shard: u32) -> Result<(), RoundError>
        ensures passed { PassedOver own.now self.old shard result self.new }
    {
        if is_own(own, shard) {
            return Err(RoundError::Down { shard });
        }
        if self.down.is_none() {
            self.down = Some(shard);
        }
        Ok(())
    }

    fn note(&mut self, flushed: Flushed)
        ensures { self.new ≡ met_flush self.old flushed }
    {
        match flushed {
            Flushed::Nothing => {}
            Flushed::Durable(_) => self.moves = true,
            Flushed::Away => self.moves = true,
        }
    }

    // Another walker writes this batch of a shard.
    fn note_away(&mut self, shard: u32, batch: Batch)
        ensures down { self.new.down ≡ self.old.down }
        ensures away { IsAlone self.new → ⊥ }
    {
        self.away = Some((shard, batch));
    }

    // The batch that another walker writes, if one was found writing.
    pub(crate) fn batch(&self) -> Option<Batch>
        ensures { result ≡ None → IsAlone self.now }
    {
        match self.away {
            Some((_shard, batch)) => Some(batch),
            None => None,
        }
    }

    // How a round ends whose own shards are up: at one that was passed over, where it moved nothing and nobody else writes.
    pub(crate) fn end(self) -> Result<Option<Batch>, RoundError>
        ensures ended { EndsAt self result }
    {
        if self.moves || self.away.is_some() {
            return Ok(self.batch());
        }
        match self.down {
            Some(shard) => Err(RoundError::Down { shard }),
            None => Ok(None),
        }
    }
}

// Flushes a shard once.
fn flush_now<M: Flier, P: Pace, R: Wait>(
    rt: &R,
    alloc: Global,
    shards: &Shards<M>,
    walker: &mut Walker<M>,
    shard: u32,
    own: &[bool; 16],
    pace: &P,
    met: &mut Met,
) -> Result<(), RoundError>
    requires walker { IsWalker shards.now walker.old }
    requires shard { shard < length shards.now.locks.items }
    ensures walker { IsWalker shards.now walker.new × IsSameWalker walker.old walker.new }
    ensures flush { Passed own.now (FlushedOn shard) walker.old.number walker.old.clock walker.old.passes.items met.old result walker.new.clock walker.new.passes.items met.new }
{
    match flush_once(rt, alloc, shards, walker, shard, pace) {
        Ok(flushed) => {
            met.note(flushed);
            Ok(())
        }
        Err(FlushError::Failed) => met.pass_over(own, shard),
        Err(FlushError::Down) => met.pass_over(own, shard),
        Err(FlushError::Worn { at }) => Err(RoundError::Worn { at }),
        Err(FlushError::Memory) => Err(RoundError::Memory),
    }
}

// Flushes a shard once, unless another walker writes a batch of it. Where it is the home of a request, those who slept on the last batch get into this one.
pub(crate) fn flush<M: Flier, P: Pace, R: Wait>(
    rt: &R,
    alloc: Global,
    shards: &Shards<M>,
    walker: &mut Walker<M>,
    shard: u32,
    is_home: bool,
    own: &[bool; 16],
    pace: &P,
    met: &mut Met,
) -> Result<(), RoundError>
    requires walker { IsWalker shards.now walker.old }
    requires shard { shard < length shards.now.locks.items }
    ensures walker { IsWalker shards.now walker.new × IsSameWalker walker.old walker.new }
    ensures flush { Passed own.now (FlushedOn shard) walker.old.number walker.old.clock walker.old.passes.items met.old result walker.new.clock walker.new.passes.items met.new }
{
    let Some(gate) = shards.batches.get(shard as usize) else {
        return flush_now(rt, alloc, shards, walker, shard, own, pace, met);
    };
    match gate.try_write() {
        Ok(writer) => {
            if is_home {
                writer.let_others_in(rt);
            }
            flush_now(rt, alloc, shards, walker, shard, own, pace, met)
        }
        Err(batch) => {
            met.note_away(shard, batch);
            Ok(())
        }
    }
}

// Sleeps until whoever writes a batch of the shard has it written.
pub(crate) fn await_writer<M: Machine, R: Wait>(
    rt: &R,
    shards: &Shards<M>,
    shard: u32,
    batch: Batch,
) {
    if let Some(gate) = shards.batches.get(shard as usize) {
        gate.sleep(rt, batch);
    }
}

// Carries one message; tells whether that is all: there was none, or the sender is down. One whose receiver is down is lost, and others may follow it.
fn carry<M: Machine, R: Wait>(
    rt: &R,
    alloc: Global,
    shards: &Shards<M>,
    walker: &mut Walker<M>,
    shard: u32,
    own: &[bool; 16],
    met: &mut Met,
) -> Result<bool, RoundError>
    requires walker { IsWalker shards.now walker.old }
    requires shard { shard < length shards.now.locks.items }
    ensures walker { IsWalker shards.now walker.new × IsSameWalker walker.old walker.new }
    ensures carried { Passed own.now (CarriedAs shard result) walker.old.number walker.old.clock walker.old.passes.items met.old result walker.new.clock walker.new.passes.items met.new }
{
    match carry_once(rt, alloc, shards, walker, shard) {
        Ok(Carry::Carried) => {
            met.moves = true;
            Ok(false)
        }
        Ok(Carry::Nothing) => Ok(true),
        Err(CarryError::Down { shard: down }) => match met.pass_over(own, down) {
            Ok(()) => Ok(down == shard),
            Err(error) => Err(error),
        },
        Err(CarryError::Worn { at }) => Err(RoundError::Worn { at }),
        Err(CarryError::Memory) => Err(RoundError::Memory),
    }
}

// Carries the messages of a shard until none is left.
pub(crate) fn carry_all<M: Machine, R: Wait>(
    rt: &R,
    alloc: Global,
    shards: &Shards<M>,
    walker: &mut Walker<M>,
    shard: u32,
    own: &[bool; 16],
    met: &mut Met,
) -> Result<(), RoundError>
    requires walker { IsWalker shards.now walker.old }
    requires shard { shard < length shards.now.locks.items }
    ensures walker { IsWalker shards.now walker.new × IsSameWalker walker.old walker.new }
    ensures carried { Passed own.now (CarriedOn shard) walker.old.number walker.old.clock walker.old.passes.items met.old result walker.new.clock walker.new.passes.items met.new }
{
    for _ in rt.forever() {
        match carry(rt, alloc, shards, walker, shard, own, met) {
            Ok(true) => return Ok(()),
            Ok(false) => {}
            Err(error) => return Err(error),
        }
    }
    unreachable!()
}

// Asks once for what a shard misses.
pub(crate) fn remind<M: Machine, R: Wait>(
    rt: &R,
    alloc: Global,
    shards: &Shards<M>,
    walker: &mut Walker<M>,
    shard: u32,
    own: &[bool; 16],
    met: &mut Met,
) -> Result<(), RoundError>
    requires walker { IsWalker shards.now walker.old }
    requires shard { shard < length shards.now.locks.items }
    ensures walker { IsWalker shards.now walker.new × IsSameWalker walker.old walker.new }
    ensures reminded { Passed own.now Whatever walker.old.number walker.old.clock walker.old.passes.items met.old result walker.new.clock walker.new.passes.items met.new }
{
    match remind_once(rt, alloc, shards, walker, shard) {
        Ok(_) => Ok(()),
        Err(CarryError::Down { shard: down }) => met.pass_over(own, down),
        Err(CarryError::Worn { at }) => Err(RoundError::Worn { at }),
        Err(CarryError::Memory) => Err(RoundError::Memory),
    }
}
