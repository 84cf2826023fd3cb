// Operations at one key.
ghost use Rattle.std.specs.Prelude.{◌≡◌, ◌<◌, true};
ghost use Rattle.clv_base.specs.declared.ops.Op.TheVariants.{Get, Put, Del, Add};
ghost use Rattle.clv_base.specs.Sessions.{lies_in};
ghost use Rattle.clv_base.specs.Shards.{in_span, shard_of, shard_count};
ghost use Rattle.cluster_turns.specs.Walkers.{IsSameWalker};
ghost use Rattle.session_ops.specs.Standing.{IsActive};
ghost use Rattle.session_ops.specs.Parts.{PointTold, StandsUnless, has_died, value_in, whole_in, added_in};

use crate::OpError;
use crate::scanned_parts::perform;
use cluster_turns::{Place, Shards, Walker};
use clv_base::ops::{Answer, Op};
use clv_base::splits::Splits;
use clv_base::values::Value;
use io_model::Pace;
use machine_calls::Flier;
use std::alloc::Global;
use std::sync::Wait;

// The shard of a key.
fn shard_for(splits: &Splits, key: u64) -> u32
    ensures shard { result ≡ shard_of splits.now key }
    ensures lies { in_span splits.now result key ≡ true }
    ensures below { (result < shard_count splits.now) × (result < 16) }
{
    let shard = splits.shard_of(key);
    let _span = splits.span(shard);
    let _count = splits.shards();
    shard
}

// The value before, as an operation at a key answers it.
fn value_of(answer: Result<Answer, OpError>) -> Result<Option<Value>, OpError>
    ensures { result ≡ value_in answer }
{
    match answer {
        Ok(Answer::Value(value)) => Ok(value),
        Ok(Answer::Pairs(_pairs)) => Ok(None),
        Ok(Answer::Added(_found)) => Ok(None),
        Err(error) => Err(error),
    }
}

// Whether there was a number, as an addition answers it.
fn added_of(answer: Result<Answer, OpError>) -> Result<bool, OpError>
    ensures { result ≡ added_in answer }
{
    match answer {
        Ok(Answer::Added(found)) => Ok(found),
        Ok(Answer::Value(_)) | Ok(Answer::Pairs(_)) => Ok(false),
        Err(error) => Err(error),
    }
}

/// One operation at a key, on the shard of that, under the transaction's next number, with a round after each wait. `Aborted` comes
/// only where the transaction died of that cause, and its other parts are dropped then; `Down`, `Worn` and `Memory` leave it active, as before.
pub fn at_key<M: Flier, P: Pace, R: Wait>(
    rt: &R,
    alloc: Global,
    shards: &Shards<M>,
    walker: &mut Walker<M>,
    place: &mut Place,
    key: u64,
    op: &Op,
    pace: &P,
) -> Result<Answer, OpError>
    requires active { IsActive shards.now walker.old place.old }
    requires lies { lies_in shards.now.splits (shard_of shards.now.splits key) op.now ≡ in_span shards.now.splits (shard_of shards.now.splits key) key }
    ensures walker { IsSameWalker walker.old walker.new }
    ensures told { PointTold whole_in shards.now walker.old place.old op.now key result walker.new place.new }
    ensures stands { StandsUnless (has_died result) shards.now walker.new place.new }
{
    let shard = shard_for(shards.splits(), key);
    let nth = place.nth() + 1;
    perform(rt, alloc, shards, walker, place, shard, nth, op, pace)
}

/// The value at a key. One operation on the shard of the key, under the transaction's next number, with a round after each wait. `Aborted` comes only
/// where the transaction died of that cause, and its other parts are dropped then; `Down`, `Worn` and `Memory` leave it active, as before.
pub fn get<M: Flier, P: Pace, R: Wait>(
    rt: &R,
    alloc: Global,
    shards: &Shards<M>,
    walker: &mut Walker<M>,
    place: &mut Place,
    key: u64,
    pace: &P,
) -> Result<Option<Value>, OpError>
    requires active { IsActive shards.now walker.old place.old }
    ensures walker { IsSameWalker walker.old walker.new }
    ensures told { PointTold value_in shards.now walker.old place.old (Get key) key result walker.new place.new }
    ensures stands { StandsUnless (has_died result) shards.now walker.new place.new }
{
    value_of(at_key(rt, alloc, shards, walker, place, key, &Op::Get(key), pace))
}

/// Puts a value at a key; answers the one before. One operation on the shard of the key, under the transaction's next number, with a round after
/// each wait. `Aborted` comes only where the transaction died of that cause, and its other parts are dropped then; `Down`, `Worn` and `Memory`
/// leave it active, as before.
pub fn put<M: Flier, P: Pace, R: Wait>(
    rt: &R,
    alloc: Global,
    shards: &Shards<M>,
    walker: &mut Walker<M>,
    place: &mut Place,
    key: u64,
    value: Value,
    pace: &P,
) -> Result<Option<Value>, OpError>
    requires active { IsActive shards.now walker.old place.old }
    ensures walker { IsSameWalker walker.old walker.new }
    ensures told { PointTold value_in shards.now walker.old place.old (Put key value) key result walker.new place.new }
    ensures stands { StandsUnless (has_died result) shards.now walker.new place.new }
{
    value_of(at_key(
        rt,
        alloc,
        shards,
        walker,
        place,
        key,
        &Op::Put(key, value),
        pace,
    ))
}

/// Deletes a key; answers its value before. One operation on the shard of the key, under the transaction's next number, with a round after each
/// wait. `Aborted` comes only where the transaction died of that cause, and its other parts are dropped then; `Down`, `Worn` and `Memory` leave
/// it active, as before.
pub fn del<M: Flier, P: Pace, R: Wait>(
    rt: &R,
    alloc: Global,
    shards: &Shards<M>,
    walker: &mut Walker<M>,
    place: &mut Place,
    key: u64,
    pace: &P,
) -> Result<Option<Value>, OpError>
    requires active { IsActive shards.now walker.old place.old }
    ensures walker { IsSameWalker walker.old walker.new }
    ensures told { PointTold value_in shards.now walker.old place.old (Del key) key result walker.new place.new }
    ensures stands { StandsUnless (has_died result) shards.now walker.new place.new }
{
    value_of(at_key(rt, alloc, shards, walker, place, key, &Op::Del(key), pace))
}

/// Adds to the number at a key, modulo 2^64; answers whether there is one. One operation on the shard of the key, under the transaction's next
/// number, with a round after each wait. `Aborted` comes only where the transaction died of that cause, and its other parts are dropped then;
/// `Down`, `Worn` and `Memory` leave it active, as before.
pub fn add<M: Flier, P: Pace, R: Wait>(
    rt: &R,
    alloc: Global,
    shards: &Shards<M>,
    walker: &mut Walker<M>,
    place: &mut Place,
    key: u64,
    by: u64,
    pace: &P,
) -> Result<bool, OpError>
    requires active { IsActive shards.now walker.old place.old }
    ensures walker { IsSameWalker walker.old walker.new }
    ensures told { PointTold added_in shards.now walker.old place.old (Add key by) key result walker.new place.new }
    ensures stands { StandsUnless (has_died result) shards.now walker.new place.new }
{
    added_of(at_key(
        rt,
        alloc,
        shards,
        walker,
        place,
        key,
        &Op::Add(key, by),
        pace,
    ))
}
