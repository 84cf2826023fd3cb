//! What a request meets.
ghost use Rattle.std.specs.Prelude.{◌≡◌, [], None, not, position, IfOk, OnOk};
ghost use Rattle.std.specs.Ordering.{is_gt};
ghost use Rattle.std.specs.List.Sorted.{IsStrictlySortedBy};
ghost use Rattle.clv_base.specs.Orders.{tx_cmp, tx_insert};
ghost use Rattle.lock_index.specs.Rows.{groups as groups_of};
ghost use Rattle.lock_index.specs.Meeting.{along, visit, oldest_step, violated_step, older_row, age_cmp, decided};

use crate::groups::on;
use crate::key::Key;
use clv_base::modes::{Anchor, Decision, Holder, Mode, Need};
use clv_base::names::{Birth, TxId};
use indexmap::IndexMap;
use lock_table::{Memory, compatible, writes};
use std::alloc::Global;
use std::cmp::Ordering;

/// An anchor, and who holds what on it.
pub(crate) type Row = (Anchor, Holder);

/// Where a row stands beside another by age, then anchor and transaction.
fn compare(row: &Row, other: &Row) -> Ordering
    ensures { result ≡ age_cmp row.now other.now }
{
    row.1
        .birth
        .cmp(&other.1.birth)
        .then(row.0.cmp(&other.0).then(row.1.tx.cmp(&other.1.tx)))
}

/// The older of two rows, where there are two.
fn older_of(row: Row, other: Option<Row>) -> Option<Row>
    ensures { result ≡ older_row row other }
{
    match other {
        Some(other) if compare(&row, &other).is_gt() => Some(other),
        _ => Some(row),
    }
}

/// The oldest of a row so far and the active holders on an anchor that are in the way.
fn oldest_on(
    anchor: Anchor,
    holders: &[Holder],
    tx: TxId,
    mode: Mode,
    so_far: Option<Row>,
) -> Option<Row>
    ensures { result ≡ along (oldest_step tx anchor mode) holders.now so_far }
{
    let mut oldest = so_far;
    for holder in holders {
        if tx != holder.tx && !holder.closed && !compatible(mode, holder.mode) {
            oldest = older_of((anchor, *holder), oldest);
        }
    }
    oldest
}

/// The oldest of the active holders that are in the way.
fn oldest(groups: &IndexMap<Key, Vec<Holder>>, tx: TxId, needs: &[Need]) -> Option<Row>
    ensures { result ≡ visit (oldest_step tx) needs.now (groups_of groups.now.entries) None }
{
    let mut oldest = None;
    for need in needs {
        oldest = oldest_on(need.anchor, on(groups, need.anchor), tx, need.mode, oldest);
    }
    oldest
}

/// What is decided on a request.
pub(crate) fn decide(
    groups: &IndexMap<Key, Vec<Holder>>,
    tx: TxId,
    birth: Birth,
    needs: &[Need],
) -> Decision
    ensures { result ≡ decided birth (visit (oldest_step tx) needs.now (groups_of groups.now.entries) None) }
{
    match oldest(groups, tx, needs) {
        None => Decision::Grant,
        Some((_, holder)) if holder.birth < birth => Decision::Die { older: holder.tx },
        Some((_, holder)) => Decision::Wait { younger: holder.tx },
    }
}

/// The first of a rising list that isn't before the transaction.
fn place_of(txs: &[TxId], tx: TxId) -> Option<usize>
    ensures { result ≡ position (λ x. not (is_gt (tx_cmp tx x))) txs.now }
{
    txs.iter().position(|other| !tx.cmp(other).is_gt())
}

/// Puts a transaction at its place in a rising list, once.
fn insert(txs: &mut Vec<TxId>, tx: TxId) -> Result<(), Memory>
    ensures { OnOk result (txs.new.items ≡ tx_insert tx txs.old.items) }
{
    let Some(at) = place_of(txs, tx) else {
        return match txs.push(tx) {
            Ok(()) => Ok(()),
            Err(_) => Err(Memory),
        };
    };
    let there = txs[at];
    if tx.cmp(&there).is_eq() {
        return Ok(());
    }
    match txs.insert(at, tx) {
        Ok(()) => Ok(()),
        Err(_) => Err(Memory),
    }
}

/// Adds the closed holders on an anchor whose writes are violated.
fn violated_on(
    found: &mut Vec<TxId>,
    anchor: Anchor,
    holders: &[Holder],
    tx: TxId,
    mode: Mode,
) -> Result<(), Memory>
    ensures { OnOk result (found.new.items ≡ along (violated_step tx anchor mode) holders.now found.old.items) }
{
    for holder in holders {
        if tx != holder.tx && holder.closed && writes(mode, holder.mode) {
            insert(found, holder.tx)?;
        }
    }
    Ok(())
}

/// The closed holders whose writes a grant would violate, rising.
pub(crate) fn violated(
    alloc: Global,
    groups: &IndexMap<Key, Vec<Holder>>,
    tx: TxId,
    needs: &[Need],
) -> Result<Vec<TxId>, Memory>
    ensures { IfOk result (λ txs. txs.items ≡ visit (violated_step tx) needs.now (groups_of groups.now.entries) []) }
{
    let mut found = Vec::new(alloc);
    for need in needs {
        violated_on(
            &mut found,
            need.anchor,
            on(groups, need.anchor),
            tx,
            need.mode,
        )?;
    }
    Ok(found)
}
