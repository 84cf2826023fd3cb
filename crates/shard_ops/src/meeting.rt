//! What a request for locks meets, and whose writes a grant violates.
ghost use Rattle.std.specs.Prelude.{◌≡◌, ◌&&◌, not, ◌≤◌, ◌+◌, is_none, length, IfOk};
ghost use Rattle.std.specs.List.{filter};
ghost use Rattle.std.specs.List.Sorted.{IsStrictlySortedBy};
ghost use Rattle.clv_base.specs.Orders.{tx_cmp, tx_in, tx_get};
ghost use Rattle.clv_base.specs.Facts.{predecessors_of};
ghost use Rattle.clv_base.specs.declared.names.Birth.{Birth as Age};
ghost use Rattle.clv_base.specs.Locks.{decide};
ghost use Rattle.clv_base.specs.Logs.{has_standing};
ghost use Rattle.shard_ops.specs.Met.{undecided_with as undecided_by, violated_by, Meets};

use cascade_undo::Deps;
use clv_base::logs::LogRecord;
use clv_base::modes::{Decision, Need};
use clv_base::names::{Birth, TxId};
use lock_table::{Locks, Memory};
use log_buffer::LogBuffer;
use std::alloc::Global;

/// The most undecided predecessors that a transaction may have on a shard.
pub const CROWD: usize = 1024;

/// What a request for locks meets.
#[derive(Drop)]
pub enum Meeting {
    /// Every holder in the way is closed. These are the ones whose writes a grant violates, rising: those of which a write stands.
    Grant { violated: Vec<TxId> },
    /// Some holder in the way is active, and all such are younger; this is the oldest of them.
    Wait { younger: TxId },
    /// Some active holder in the way is older; this is the oldest of them.
    Die { older: TxId },
    /// A grant would leave the transaction with so many undecided predecessors, which are too many.
    Crowded { count: usize },
}

/// Whether a transaction would be one more undecided predecessor.
fn is_new_undecided(deps: &Deps, tx: TxId, pred: TxId) -> bool
    ensures { result ≡ (is_none (tx_get pred deps.now.commits) && not (tx_in pred (predecessors_of deps.now.pairs tx))) }
{
    deps.settled_at(pred).is_none() && !deps.is_predecessor(tx, pred)
}

/// How many of these would be new undecided predecessors.
fn count_new(deps: &Deps, tx: TxId, preds: &[TxId]) -> usize
    ensures { result ≡ length (filter (λ p. is_none (tx_get p deps.now.commits) && not (tx_in p (predecessors_of deps.now.pairs tx))) preds.now) }
{
    preds
        .iter()
        .filter(|pred| is_new_undecided(deps, tx, **pred))
        .count()
}

/// The sum of two counts, of which each is at most as many as a list has.
fn both(known: &[TxId], preds: &[TxId], some: usize, more: usize) -> usize
    requires { (some ≤ length known.now) × (more ≤ length preds.now) }
    ensures { result ≡ some + more }
{
    some + more
}

/// How many undecided predecessors the transaction would have with these, which rise.
fn undecided_with(deps: &Deps, tx: TxId, preds: &[TxId]) -> usize
    requires { IsStrictlySortedBy tx_cmp preds.now }
    ensures { result ≡ length (undecided_by deps.now tx preds.now) }
{
    let known = deps.predecessors(tx);
    both(known, preds, deps.undecided(tx), count_new(deps, tx, preds))
}

/// Those of the transactions of which a write stands.
fn keep_standing(buffer: &LogBuffer<LogRecord>, txs: &mut Vec<TxId>)
    ensures { txs.new.items ≡ filter (has_standing buffer.now.records) txs.old.items }
{
    txs.retain(|tx| buffer.has_standing(*tx));
}

/// The closed holders whose locks a grant violates, and of which a write stands, rising.
fn violated<L: Locks>(
    alloc: Global,
    locks: &L,
    buffer: &LogBuffer<LogRecord>,
    tx: TxId,
    needs: &[Need],
) -> Result<Vec<TxId>, Memory>
    ensures txs { IfOk result (λ txs. txs.items ≡ violated_by buffer.now.records tx needs.now (L.rows locks.now)) }
    ensures rising { IfOk result (λ txs. IsStrictlySortedBy tx_cmp txs.items) }
{
    match locks.violated(alloc, tx, needs) {
        Ok(mut violated) => {
            keep_standing(buffer, &mut violated);
            Ok(violated)
        }
        Err(memory) => Err(memory),
    }
}

/// A grant, where it doesn't make too many undecided predecessors.
fn granted<L: Locks>(
    alloc: Global,
    locks: &L,
    deps: &Deps,
    buffer: &LogBuffer<LogRecord>,
    tx: TxId,
    needs: &[Need],
) -> Result<Meeting, Memory>
    ensures { IfOk result (λ m. (birth : Age) → decide tx birth needs.now (L.rows locks.now) ≡ Decision.Grant → Meets tx birth needs.now (L.rows locks.now) buffer.now.records deps.now m) }
{
    let violated = match violated(alloc, locks, buffer, tx, needs) {
        Ok(violated) => violated,
        Err(memory) => return Err(memory),
    };
    let count = undecided_with(deps, tx, &violated);
    if count > CROWD {
        return Ok(Meeting::Crowded { count });
    }
    Ok(Meeting::Grant { violated })
}

/// What a request for locks meets: the decision over all locks, where a grant that would make more than `CROWD` undecided predecessors is
/// `Crowded`. Whether a write of a closed holder stands takes one look. Nothing is changed; the only error is want of memory.
pub fn meet<L: Locks>(
    alloc: Global,
    locks: &L,
    deps: &Deps,
    buffer: &LogBuffer<LogRecord>,
    tx: TxId,
    birth: Birth,
    needs: &[Need],
) -> Result<Meeting, Memory>
    ensures { IfOk result (Meets tx birth needs.now (L.rows locks.now) buffer.now.records deps.now) }
{
    match locks.decide(tx, birth, needs) {
        Decision::Grant => granted(alloc, locks, deps, buffer, tx, needs),
        Decision::Wait { younger } => Ok(Meeting::Wait { younger }),
        Decision::Die { older } => Ok(Meeting::Die { older }),
    }
}
