// Scans over all shards that a range meets.
ghost use Rattle.std.specs.Prelude.{◌≡◌, ◌<◌, ◌≤◌, ◌+◌, length, Some, IfOk};
ghost use Rattle.clv_base.specs.declared.names.Birth.{Birth as BirthIs};
ghost use Rattle.cluster_turns.specs.Walkers.{IsSameWalker};
ghost use Rattle.session_ops.specs.Standing.{IsActive};
ghost use Rattle.session_ops.specs.Parts.{StandsUnless, has_died};
ghost use Rattle.session_ops.specs.Scanned.{part_on, IsUnder, IsSameTx, TakesPairs, Stepping, Scanning};
ghost use Rattle.session_ops.specs.Stepped.{PartTold, PartsTold};

use crate::OpError;
use crate::scanned_parts::perform;
use cluster_turns::{Place, Shards, Walker};
use clv_base::lists::Pairs;
use clv_base::ops::{Answer, Op};
use clv_base::splits::Splits;
use clv_base::values::Value;
use io_model::Pace;
use machine_calls::Flier;
use std::alloc::Global;
use std::sync::Wait;

// The part of a range on a shard, if any key of it may lie there.
fn part_of(splits: &Splits, shard: u32, lo: u64, hi: u64) -> Option<(u64, u64)>
    ensures { result ≡ part_on splits.now shard lo hi }
{
    match splits.span(shard) {
        None => None,
        Some((first, last)) => {
            let from = if lo < first { first } else { lo };
            let to = if last < hi { last } else { hi };
            if from <= to { Some((from, to)) } else { None }
        }
    }
}

// The pairs of an answer, behind the others.
fn take(pairs: &mut Vec<(u64, Value)>, answer: Result<Answer, OpError>) -> Result<(), OpError>
    ensures { TakesPairs pairs.old.items answer result pairs.new.items }
{
    match answer {
        Ok(Answer::Pairs(list)) => match pairs.append(&mut list.into_vec()) {
            Ok(()) => Ok(()),
            Err(_) => Err(OpError::Memory),
        },
        Ok(Answer::Value(_)) | Ok(Answer::Added(_)) => Ok(()),
        Err(error) => Err(error),
    }
}

// Its part scan on a shard, where it has a part there, with its pairs behind the others.
fn scan_part<M: Flier, P: Pace, R: Wait>(
    rt: &R,
    alloc: Global,
    shards: &Shards<M>,
    walker: &mut Walker<M>,
    place: &mut Place,
    shard: u32,
    nth: u64,
    lo: u64,
    hi: u64,
    pairs: &mut Vec<(u64, Value)>,
    pace: &P,
) -> Result<(), OpError>
    requires active { IsActive shards.now walker.old place.old }
    requires shard { (shard < length shards.now.locks.items) × (shard < 16) }
    requires under { IsUnder shard nth place.old }
    ensures walker { IsSameWalker walker.old walker.new }
    ensures turns { (birth : BirthIs) → place.old.birth ≡ Some birth → Stepping shards.now.splits (length shards.now.locks.items) walker.old.number walker.old.clock walker.old.passes.items (record { tx = place.old.tx; birth = birth; nth = nth; lo = lo; hi = hi }) shard place.new.touched pairs.old.items pairs.new.items result walker.new.clock walker.new.passes.items }
    ensures part { (birth : BirthIs) → place.old.birth ≡ Some birth → PartTold (part_on shards.now.splits shard lo hi) shards.now birth nth shard walker.old place.old pairs.old.items result walker.new place.new pairs.new.items }
    ensures same { IsSameTx place.old place.new }
    ensures under { IfOk result (λ u. IsUnder (shard + 1) nth place.new) }
    ensures stands { StandsUnless (has_died result) shards.now walker.new place.new }
{
    match part_of(shards.splits(), shard, lo, hi) {
        None => Ok(()),
        Some((from, to)) => {
            let op = Op::Scan(from, to);
            let answer = perform(rt, alloc, shards, walker, place, shard, nth, &op, pace);
            take(pairs, answer)
        }
    }
}

/// All pairs from `lo` up to `hi`, in rising order: one part scan on each shard whose keys the range meets, shards rising, all under the transaction's next
/// number, each with a round after each wait; the answer is what they answered, one behind another. `Aborted` comes only where the transaction died of a part,
/// and its other parts are dropped then; `Down` only where a turn of the call found that shard down, which the range meets or which comes after a wait. After
/// `Down`, `Worn` and `Memory` the transaction is active, with the parts that were scanned so far.
pub fn scan<M: Flier, P: Pace, R: Wait>(
    rt: &R,
    alloc: Global,
    shards: &Shards<M>,
    walker: &mut Walker<M>,
    place: &mut Place,
    lo: u64,
    hi: u64,
    pace: &P,
) -> Result<Pairs, OpError>
    requires active { IsActive shards.now walker.old place.old }
    ensures walker { IsSameWalker walker.old walker.new }
    ensures turns { (birth : BirthIs) → place.old.birth ≡ Some birth → Scanning shards.now.splits (length shards.now.locks.items) walker.old.number walker.old.clock walker.old.passes.items (record { tx = place.old.tx; birth = birth; nth = place.old.nth + 1; lo = lo; hi = hi }) place.new.touched result walker.new.clock walker.new.passes.items }
    ensures parts { (birth : BirthIs) → place.old.birth ≡ Some birth → PartsTold shards.now birth (place.old.nth + 1) lo hi walker.old place.old result walker.new place.new }
    ensures same { IsSameTx place.old place.new }
    ensures stands { StandsUnless (has_died result) shards.now walker.new place.new }
{
    let nth = place.nth() + 1;
    let mut pairs = Vec::new(alloc);
    for shard in 0..shards.splits().shards() {
        match scan_part(
            rt, alloc, shards, walker, place, shard, nth, lo, hi, &mut pairs, pace,
        ) {
            Ok(()) => {}
            Err(error) => return Err(error),
        }
    }
    Ok(Pairs::new(pairs))
}
