//! Calls one after another.
ghost use Rattle.std.specs.Prelude.{◌≡◌, ℕ, List, take, IfOk, OnErr};
ghost use Rattle.callers.specs.declared.lock_answers.LockAnswer.{LockAnswer as OneAnswer};
ghost use Rattle.callers.specs.LockRuns.{Does, Runs};

use crate::lock_answers::{HolderList, LockAnswer};
use crate::lock_calls::LockCall;
use crate::lock_taking as taking;
use clv_base::lists::TxList;
use lock_table::{Locks, Memory};
use std::alloc::Global;

/// Makes one call. The only error is want of memory, which leaves the rows.
pub fn run_call<L: Locks>(
    alloc: Global,
    locks: &mut L,
    call: &LockCall<'_>,
) -> Result<LockAnswer, Memory>
    ensures ok { IfOk result (λ answer. Does call.now answer (L.rows locks.old) (L.rows locks.new)) }
    ensures memory { OnErr result (L.rows locks.new ≡ L.rows locks.old) }
{
    match *call {
        LockCall::Take { tx, birth, needs } => taking::take(alloc, locks, tx, birth, needs)?,
        LockCall::SplitGap { tx, lower, new } => taking::split_gap(locks, tx, lower, new)?,
        LockCall::ClosePart(tx) => locks.close_part(tx),
        LockCall::Release(tx) => locks.release(tx),
        LockCall::ReleaseNext(tx) => return Ok(LockAnswer::GaveUp(locks.release_next(tx))),
        LockCall::GapCount(anchor) => return Ok(LockAnswer::Count(locks.gap_count(anchor))),
        LockCall::Decide { tx, birth, needs } => {
            return Ok(LockAnswer::Decided(locks.decide(tx, birth, needs)));
        }
        LockCall::Violated { tx, needs } => {
            return Ok(LockAnswer::Txs(TxList::new(locks.violated(alloc, tx, needs)?)));
        }
        LockCall::IsFree(anchor) => return Ok(LockAnswer::Free(locks.free(anchor))),
        LockCall::Holders(anchor) => {
            return Ok(LockAnswer::Held(HolderList::new(locks.holders(alloc, anchor)?)));
        }
    }
    Ok(LockAnswer::Done)
}

/// Makes the calls one after another, and gives their answers in order. The only error is want of memory: a front of the calls was made, and the
/// others were not.
pub fn run_calls<L: Locks>(
    alloc: Global,
    locks: &mut L,
    calls: &[LockCall<'_>],
) -> Result<Vec<LockAnswer>, Memory>
    ensures ok { IfOk result (λ answers. Runs calls.now answers.items (L.rows locks.old) (L.rows locks.new)) }
    ensures memory { OnErr result ((n : ℕ) × (answers : List OneAnswer) × Runs (take n calls.now) answers (L.rows locks.old) (L.rows locks.new)) }
{
    let Ok(mut answers) = Vec::with_capacity(alloc, calls.len()) else {
        return Err(Memory);
    };
    for call in calls {
        answers.push_reserved(run_call(alloc, locks, call)?);
    }
    Ok(answers)
}
