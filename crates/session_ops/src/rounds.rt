// A round.
ghost use Rattle.std.specs.Prelude.{◌<◌, length};
ghost use Rattle.cluster_turns.specs.Walkers.{IsWalker, IsSameWalker};
ghost use Rattle.session_ops.specs.Rounds.{Rounded, RoundRests, RoundTold, Passed, IsOwn, Every, TellsAway, Whatever, MovedOn, AllMoved, TriedIfOwn, OwnTried, BothTried, IsEither, EveryCarried, OwnMoved};

use crate::flushes::Flushes;
use crate::parts::{Met, RoundError, await_writer, carry_all, flush, is_own, remind};
use cluster_turns::{Shards, Walker};
use io_model::Pace;
use machine_calls::{Flier, Machine};
use std::alloc::Global;
use std::sync::Wait;
use turn_lock::Batch;

// Flushes a shard and carries its messages.
fn move_one<M: Flier, P: Pace, R: Wait>(
    rt: &R,
    alloc: Global,
    shards: &Shards<M>,
    walker: &mut Walker<M>,
    shard: u32,
    is_home: bool,
    own: &[bool; 16],
    pace: &P,
    met: &mut Met,
) -> Result<(), RoundError>
    requires walker { IsWalker shards.now walker.old }
    requires shard { shard < length shards.now.locks.items }
    ensures walker { IsWalker shards.now walker.new × IsSameWalker walker.old walker.new }
    ensures round { Passed own.now (MovedOn shard) walker.old.number walker.old.clock walker.old.passes.items met.old result walker.new.clock walker.new.passes.items met.new }
{
    match flush(rt, alloc, shards, walker, shard, is_home, own, pace, met) {
        Ok(()) => carry_all(rt, alloc, shards, walker, shard, own, met),
        Err(error) => Err(error),
    }
}

// Flushes all shards and carries their messages.
fn move_all<M: Flier, P: Pace, R: Wait>(
    rt: &R,
    alloc: Global,
    shards: &Shards<M>,
    walker: &mut Walker<M>,
    own: &[bool; 16],
    pace: &P,
    met: &mut Met,
) -> Result<(), RoundError>
    requires walker { IsWalker shards.now walker.old }
    ensures walker { IsWalker shards.now walker.new × IsSameWalker walker.old walker.new }
    ensures round { Passed own.now (AllMoved (length shards.now.locks.items)) walker.old.number walker.old.clock walker.old.passes.items met.old result walker.new.clock walker.new.passes.items met.new }
{
    for shard in 0..shards.splits().shards() {
        match move_one(rt, alloc, shards, walker, shard, false, own, pace, met) {
            Ok(()) => {}
            Err(error) => return Err(error),
        }
    }
    Ok(())
}

// Carries the messages of all shards.
fn carry_every<M: Machine, R: Wait>(
    rt: &R,
    alloc: Global,
    shards: &Shards<M>,
    walker: &mut Walker<M>,
    own: &[bool; 16],
    met: &mut Met,
) -> Result<(), RoundError>
    requires walker { IsWalker shards.now walker.old }
    ensures walker { IsWalker shards.now walker.new × IsSameWalker walker.old walker.new }
    ensures round { Passed own.now (EveryCarried (length shards.now.locks.items)) walker.old.number walker.old.clock walker.old.passes.items met.old result walker.new.clock walker.new.passes.items met.new }
{
    for shard in 0..shards.splits().shards() {
        match carry_all(rt, alloc, shards, walker, shard, own, met) {
            Ok(()) => {}
            Err(error) => return Err(error),
        }
    }
    Ok(())
}

// A shard is flushed that is among these, and its messages are carried; nothing is done on another.
fn move_if_own<M: Flier, P: Pace, R: Wait>(
    rt: &R,
    alloc: Global,
    shards: &Shards<M>,
    walker: &mut Walker<M>,
    shard: u32,
    flushed: &[bool; 16],
    own: &[bool; 16],
    pace: &P,
    met: &mut Met,
) -> Result<(), RoundError>
    requires walker { IsWalker shards.now walker.old }
    requires shard { shard < length shards.now.locks.items }
    ensures walker { IsWalker shards.now walker.new × IsSameWalker walker.old walker.new }
    ensures round { Passed own.now (TriedIfOwn flushed.now shard) walker.old.number walker.old.clock walker.old.passes.items met.old result walker.new.clock walker.new.passes.items met.new }
{
    if is_own(flushed, shard) {
        move_one(rt, alloc, shards, walker, shard, true, own, pace, met)
    } else {
        Ok(())
    }
}

// Flushes these shards and carries their messages.
fn move_own<M: Flier, P: Pace, R: Wait>(
    rt: &R,
    alloc: Global,
    shards: &Shards<M>,
    walker: &mut Walker<M>,
    flushed: &[bool; 16],
    own: &[bool; 16],
    pace: &P,
    met: &mut Met,
) -> Result<(), RoundError>
    requires walker { IsWalker shards.now walker.old }
    ensures walker { IsWalker shards.now walker.new × IsSameWalker walker.old walker.new }
    ensures round { Passed own.now (OwnTried flushed.now (length shards.now.locks.items)) walker.old.number walker.old.clock walker.old.passes.items met.old result walker.new.clock walker.new.passes.items met.new }
{
    for shard in 0..shards.splits().shards() {
        match move_if_own(rt, alloc, shards, walker, shard, flushed, own, pace, met) {
            Ok(()) => {}
            Err(error) => return Err(error),
        }
    }
    Ok(())
}

// The same of a request's home, unless another walker writes a batch of one of its other shards: the vote of that one comes behind it, and the COMMIT behind the vote.
fn move_home<M: Flier, P: Pace, R: Wait>(
    rt: &R,
    alloc: Global,
    shards: &Shards<M>,
    walker: &mut Walker<M>,
    home: &[bool; 16],
    own: &[bool; 16],
    pace: &P,
    met: &mut Met,
) -> Result<(), RoundError>
    requires walker { IsWalker shards.now walker.old }
    ensures walker { IsWalker shards.now walker.new × IsSameWalker walker.old walker.new }
    ensures round { Passed own.now (OwnTried home.now (length shards.now.locks.items)) walker.old.number walker.old.clock walker.old.passes.items met.old result walker.new.clock walker.new.passes.items met.new }
{
    if met.away.is_some() {
        Ok(())
    } else {
        move_own(rt, alloc, shards, walker, home, own, pace, met)
    }
}

// Flushes the shards of a request, its home last: so the home's batch has the COMMIT where all votes came.
fn move_in_order<M: Flier, P: Pace, R: Wait>(
    rt: &R,
    alloc: Global,
    shards: &Shards<M>,
    walker: &mut Walker<M>,
    flushes: &Flushes,
    own: &[bool; 16],
    pace: &P,
    met: &mut Met,
) -> Result<(), RoundError>
    requires walker { IsWalker shards.now walker.old }
    ensures walker { IsWalker shards.now walker.new × IsSameWalker walker.old walker.new }
    ensures round { Passed own.now (BothTried flushes.now.others flushes.now.home (length shards.now.locks.items)) walker.old.number walker.old.clock walker.old.passes.items met.old result walker.new.clock walker.new.passes.items met.new }
{
    match move_own(rt, alloc, shards, walker, &flushes.others, own, pace, met) {
        Ok(()) => move_home(rt, alloc, shards, walker, &flushes.home, own, pace, met),
        Err(error) => Err(error),
    }
}

// Carries the messages of a request's home where others take part: the Prepares come to them before they are flushed.
fn carry_home<M: Machine, R: Wait>(
    rt: &R,
    alloc: Global,
    shards: &Shards<M>,
    walker: &mut Walker<M>,
    home: u32,
    flushes: &Flushes,
    own: &[bool; 16],
    met: &mut Met,
) -> Result<(), RoundError>
    requires walker { IsWalker shards.now walker.old }
    requires shard { home < length shards.now.locks.items }
    ensures walker { IsWalker shards.now walker.new × IsSameWalker walker.old walker.new }
    ensures round { Passed own.now Whatever walker.old.number walker.old.clock walker.old.passes.items met.old result walker.new.clock walker.new.passes.items met.new }
{
    if flushes.has_others() {
        carry_all(rt, alloc, shards, walker, home, own, met)
    } else {
        Ok(())
    }
}

// Carries the messages of the home, and flushes the shards of a request.
fn carry_and_flush<M: Flier, P: Pace, R: Wait>(
    rt: &R,
    alloc: Global,
    shards: &Shards<M>,
    walker: &mut Walker<M>,
    home: u32,
    flushes: &Flushes,
    own: &[bool; 16],
    pace: &P,
    met: &mut Met,
) -> Result<(), RoundError>
    requires walker { IsWalker shards.now walker.old }
    requires shard { home < length shards.now.locks.items }
    ensures walker { IsWalker shards.now walker.new × IsSameWalker walker.old walker.new }
    ensures round { Passed own.now (BothTried flushes.now.others flushes.now.home (length shards.now.locks.items)) walker.old.number walker.old.clock walker.old.passes.items met.old result walker.new.clock walker.new.passes.items met.new }
{
    match carry_home(rt, alloc, shards, walker, home, flushes, own, met) {
        Ok(()) => move_in_order(rt, alloc, shards, walker, flushes, own, pace, met),
        Err(error) => Err(error),
    }
}

// The same, and then carries the messages of all shards: so a batch of the request's is written whatever shard is down besides.
fn carry_and_move<M: Flier, P: Pace, R: Wait>(
    rt: &R,
    alloc: Global,
    shards: &Shards<M>,
    walker: &mut Walker<M>,
    home: u32,
    flushes: &Flushes,
    own: &[bool; 16],
    pace: &P,
    met: &mut Met,
) -> Result<(), RoundError>
    requires walker { IsWalker shards.now walker.old }
    requires shard { home < length shards.now.locks.items }
    ensures walker { IsWalker shards.now walker.new × IsSameWalker walker.old walker.new }
    ensures round { Passed own.now (OwnMoved flushes.now.others flushes.now.home (length shards.now.locks.items)) walker.old.number walker.old.clock walker.old.passes.items met.old result walker.new.clock walker.new.passes.items met.new }
{
    match carry_and_flush(rt, alloc, shards, walker, home, flushes, own, pace, met) {
        Ok(()) => carry_every(rt, alloc, shards, walker, own, met),
        Err(error) => Err(error),
    }
}

// Asks for what is missing at all shards.
fn ask_all<M: Machine, R: Wait>(
    rt: &R,
    alloc: Global,
    shards: &Shards<M>,
    walker: &mut Walker<M>,
    own: &[bool; 16],
    met: &mut Met,
) -> Result<(), RoundError>
    requires walker { IsWalker shards.now walker.old }
    ensures walker { IsWalker shards.now walker.new × IsSameWalker walker.old walker.new }
    ensures round { Passed own.now Whatever walker.old.number walker.old.clock walker.old.passes.items met.old result walker.new.clock walker.new.passes.items met.new }
{
    for shard in 0..shards.splits().shards() {
        match remind(rt, alloc, shards, walker, shard, own, met) {
            Ok(()) => {}
            Err(error) => return Err(error),
        }
    }
    Ok(())
}

// Where nothing moved: sleeps until a batch is written that another walker writes, or else asks for what is missing.
fn stand_by<M: Machine, R: Wait>(
    rt: &R,
    alloc: Global,
    shards: &Shards<M>,
    walker: &mut Walker<M>,
    own: &[bool; 16],
    met: &mut Met,
) -> Result<(), RoundError>
    requires walker { IsWalker shards.now walker.old }
    ensures walker { IsWalker shards.now walker.new × IsSameWalker walker.old walker.new }
    ensures round { Passed own.now Whatever walker.old.number walker.old.clock walker.old.passes.items met.old result walker.new.clock walker.new.passes.items met.new }
{
    if met.moves {
        return Ok(());
    }
    match met.away {
        Some((shard, batch)) => {
            await_writer(rt, shards, shard, batch);
            Ok(())
        }
        None => ask_all(rt, alloc, shards, walker, own, met),
    }
}

// All that a round does.
fn move_and_ask<M: Flier, P: Pace, R: Wait>(
    rt: &R,
    alloc: Global,
    shards: &Shards<M>,
    walker: &mut Walker<M>,
    own: &[bool; 16],
    pace: &P,
    met: &mut Met,
) -> Result<(), RoundError>
    requires walker { IsWalker shards.now walker.old }
    ensures walker { IsWalker shards.now walker.new × IsSameWalker walker.old walker.new }
    ensures round { Passed own.now (AllMoved (length shards.now.locks.items)) walker.old.number walker.old.clock walker.old.passes.items met.old result walker.new.clock walker.new.passes.items met.new }
{
    match move_all(rt, alloc, shards, walker, own, pace, met) {
        Ok(()) => stand_by(rt, alloc, shards, walker, own, met),
        Err(error) => Err(error),
    }
}

/// Goes through all shards, in rising order: flushes once, unless another walker writes a batch, and carries messages until none is left. Where
/// nothing moved it sleeps until the other's batch is written, or, where nobody writes, asks once for what is missing. The shards that the caller
/// needs are its own, by their numbers. One that ends well has found each shard with no message left, or down, and has tried to flush each, unless it
/// answers a batch that another walker writes: only who was refused the right to write has one to answer. `Down` comes only where a turn of the round
/// found that shard down: an own one ends the round there; any other is passed over, and its messages and those to it with it, and ends the round
/// only where it moved nothing and nobody else writes: each shard was then found down, or with nothing buffered and no message. `Worn` comes only
/// where a turn would have had a stamp past the last; the round ends there.
pub fn round<M: Flier, P: Pace, R: Wait>(
    rt: &R,
    alloc: Global,
    shards: &Shards<M>,
    walker: &mut Walker<M>,
    own: &[bool; 16],
    pace: &P,
) -> Result<Option<Batch>, RoundError>
    requires walker { IsWalker shards.now walker.old }
    ensures walker { IsWalker shards.now walker.new × IsSameWalker walker.old walker.new }
    ensures round { Rounded walker.old.number walker.old.clock walker.old.passes.items result walker.new.clock walker.new.passes.items }
    ensures told { RoundTold (length shards.now.locks.items) (IsOwn own.now) Every walker.old.number walker.old.clock walker.old.passes.items result walker.new.clock walker.new.passes.items }
{
    let mut met = Met::new();
    match move_and_ask(rt, alloc, shards, walker, own, pace, &mut met) {
        Ok(()) => met.end(),
        Err(error) => Err(error),
    }
}

// Sleeps until a batch is written that another walker writes; or, where nobody writes and nothing of a request moved, makes a round over all shards.
fn stand_by_own<M: Flier, P: Pace, R: Wait>(
    rt: &R,
    alloc: Global,
    shards: &Shards<M>,
    walker: &mut Walker<M>,
    own: &[bool; 16],
    pace: &P,
    met: Met,
) -> Result<Option<Batch>, RoundError>
    requires walker { IsWalker shards.now walker.old }
    ensures walker { IsWalker shards.now walker.new × IsSameWalker walker.old walker.new }
    ensures round { Rounded walker.old.number walker.old.clock walker.old.passes.items result walker.new.clock walker.new.passes.items }
    ensures rests { RoundRests (length shards.now.locks.items) (IsOwn own.now) walker.old.number walker.old.clock walker.old.passes.items result walker.new.clock walker.new.passes.items }
    ensures away { TellsAway met result }
{
    match met.away {
        Some((shard, batch)) => {
            await_writer(rt, shards, shard, batch);
            Ok(Some(batch))
        }
        None => {
            if met.moves {
                return Ok(None);
            }
            round(rt, alloc, shards, walker, own, pace)
        }
    }
}

/// A round of whoever waits for a request with this home: carries the home's messages where others take part, flushes those others that are to be flushed and
/// then the home, each once, unless another walker writes a batch, and carries their messages, then those of all shards. The home it doesn't flush where
/// another walker writes a batch of one of the others. Before it writes a batch it gives way to those who slept on the shard's last one, so that they get
/// into this one. Where another walker writes it sleeps until that batch is written; where nobody writes and nothing moved it makes a `round`.
/// One that ends well has found each shard with no message left, or down, and has tried to flush those that are to be flushed, unless it answers a batch that
/// another walker writes. `Down` and `Worn` come as of a `round` with these own shards.
pub(crate) fn round_for<M: Flier, P: Pace, R: Wait>(
    rt: &R,
    alloc: Global,
    shards: &Shards<M>,
    walker: &mut Walker<M>,
    home: u32,
    flushes: &mut Flushes,
    own: &[bool; 16],
    pace: &P,
) -> Result<Option<Batch>, RoundError>
    requires walker { IsWalker shards.now walker.old }
    requires shard { home < length shards.now.locks.items }
    ensures walker { IsWalker shards.now walker.new × IsSameWalker walker.old walker.new }
    ensures round { Rounded walker.old.number walker.old.clock walker.old.passes.items result walker.new.clock walker.new.passes.items }
    ensures told { RoundTold (length shards.now.locks.items) (IsOwn own.now) (IsEither flushes.old.others flushes.old.home) walker.old.number walker.old.clock walker.old.passes.items result walker.new.clock walker.new.passes.items }
{
    let mut met = Met::new();
    match carry_and_move(
        rt, alloc, shards, walker, home, flushes, own, pace, &mut met,
    ) {
        Ok(()) => {
            flushes.pass(home, &met);
            stand_by_own(rt, alloc, shards, walker, own, pace, met)
        }
        Err(error) => Err(error),
    }
}
