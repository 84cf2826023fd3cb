//! What a request meets among the rows.
ghost use Rattle.std.specs.Prelude.{◌≡◌, not, position, IfOk, OnOk};
ghost use Rattle.std.specs.Ordering.{is_gt};
ghost use Rattle.std.specs.List.Sorted.{IsStrictlySortedBy};
ghost use Rattle.clv_base.specs.Modes.{compatible as fits, writes as is_written};
ghost use Rattle.clv_base.specs.Locks.{meets, decide as decision_on, violated as violated_by_grant, older_of as older_holder};
ghost use Rattle.clv_base.specs.Orders.{tx_cmp, tx_insert};

use crate::locks::Memory;
use crate::rows::Row;
use crate::{compatible, writes};
use clv_base::modes::{Decision, Holder, Need};
use clv_base::names::{Birth, TxId};
use std::alloc::Global;

/// Whether a row doesn't fit some need on its anchor.
pub(crate) fn conflicts(needs: &[Need], row: &Row) -> bool
    ensures { result ≡ meets (λ a h. not (fits a h)) needs.now row.now }
{
    for need in needs {
        if need.anchor == row.0 && !compatible(need.mode, row.1.mode) {
            return true;
        }
    }
    false
}

/// Whether a write in a row is violated by some need on its anchor.
pub(crate) fn is_write_met(needs: &[Need], row: &Row) -> bool
    ensures { result ≡ meets is_written needs.now row.now }
{
    for need in needs {
        if need.anchor == row.0 && writes(need.mode, row.1.mode) {
            return true;
        }
    }
    false
}

/// The older of two holders, where there are two.
fn older_of(holder: Holder, other: Option<Holder>) -> Holder
    ensures { result ≡ older_holder holder other }
{
    match other {
        Some(other) if other.birth < holder.birth => other,
        _ => holder,
    }
}

/// The oldest of the active holders in a request's way: of those that are older than it, and of all.
#[derive(Clone, Copy)]
struct InWay {
    older: Option<Holder>,
    active: Option<Holder>,
}

impl InWay {
    ghost use Rattle.std.specs.Prelude.{◌≡◌, ◌∷◌};
    ghost use Rattle.clv_base.specs.Locks.{Locks as AllRows, die_by, wait_by};
    ghost use Rattle.lock_table.specs.Rows.{AreOldest};

    /// The oldest with one more row.
    fn with(self, row: &Row, tx: TxId, birth: Birth, needs: &[Need]) -> InWay
        ensures { (rows : AllRows) → AreOldest tx birth needs.now rows self.older self.active → AreOldest tx birth needs.now (row.now ∷ rows) result.older result.active }
    {
        let holder = row.1;
        if tx == holder.tx || !conflicts(needs, row) || holder.closed {
            return self;
        }
        let active = Some(older_of(holder, self.active));
        if holder.birth < birth {
            let older = Some(older_of(holder, self.older));
            InWay { older, active }
        } else {
            InWay { active, ..self }
        }
    }

    fn decision(self) -> Decision
        ensures { result ≡ die_by self.older (wait_by self.active) }
    {
        match (self.older, self.active) {
            (Some(holder), _) => Decision::Die { older: holder.tx },
            (None, Some(holder)) => Decision::Wait { younger: holder.tx },
            (None, None) => Decision::Grant,
        }
    }
}

/// The decision over all rows.
pub(crate) fn decide(rows: &[Row], tx: TxId, birth: Birth, needs: &[Need]) -> Decision
    ensures { result ≡ decision_on tx birth needs.now rows.now }
{
    let mut oldest = InWay {
        older: None,
        active: None,
    };
    let mut left = rows.len();
    while left > 0 {
        left -= 1;
        oldest = oldest.with(&rows[left], tx, birth, needs);
    }
    oldest.decision()
}

/// The closed holders whose writes a grant would violate, rising.
pub(crate) fn violated(
    alloc: Global,
    rows: &[Row],
    tx: TxId,
    needs: &[Need],
) -> Result<Vec<TxId>, Memory>
    ensures ok { IfOk result (λ txs. txs.items ≡ violated_by_grant tx needs.now rows.now) }
    ensures rising { IfOk result (λ txs. IsStrictlySortedBy tx_cmp txs.items) }
{
    let mut found = Vec::new(alloc);
    for row in rows {
        if tx != row.1.tx && row.1.closed && is_write_met(needs, row) {
            insert(&mut found, row.1.tx)?;
        }
    }
    Ok(found)
}

/// The first of a rising list that isn't before the transaction.
fn place_of(txs: &[TxId], tx: TxId) -> Option<usize>
    ensures { result ≡ position (λ x. not (is_gt (tx_cmp tx x))) txs.now }
{
    txs.iter().position(|other| !tx.cmp(other).is_gt())
}

/// Puts a transaction at its place in a rising list, once.
fn insert(txs: &mut Vec<TxId>, tx: TxId) -> Result<(), Memory>
    ensures { OnOk result (txs.new.items ≡ tx_insert tx txs.old.items) }
{
    let Some(at) = place_of(txs, tx) else {
        return match txs.push(tx) {
            Ok(()) => Ok(()),
            Err(_) => Err(Memory),
        };
    };
    let there = txs[at];
    if tx.cmp(&there).is_eq() {
        return Ok(());
    }
    match txs.insert(at, tx) {
        Ok(()) => Ok(()),
        Err(_) => Err(Memory),
    }
}
