//! What one transaction holds among the rows, and what is held on one anchor.
ghost use Rattle.std.specs.Prelude.{◌≡◌, ◌≤◌, [], ◌∷◌, not, position, IfOk, vec_len, vec_capacity};
ghost use Rattle.std.specs.List.{list_any};
ghost use Rattle.clv_base.specs.Orders.{tx_same, tx_in, anchor_same};
ghost use Rattle.clv_base.specs.Locks.{close_holder, close_locks, release as without_locks_of, is_free as is_held_by_none};
ghost use Rattle.lock_table.specs.Rows.{holders_on, is_lock_of as tells_lock_of, without_lock, GivesUpOne};

use crate::locks::Memory;
use crate::rows::Row;
use clv_base::modes::{Anchor, Holder};
use clv_base::names::TxId;
use std::alloc::Global;

/// A lock becomes closed where it is the transaction's.
fn close_row(row: &mut Row, tx: TxId)
    ensures { row.new ≡ ((row.old).0, close_holder tx (row.old).1) }
{
    if tx == row.1.tx {
        row.1.closed = true;
    }
}

/// The transaction's locks become closed.
pub(crate) fn close(rows: &mut [Row], tx: TxId)
    ensures { rows.new ≡ close_locks tx rows.old }
{
    for row in rows.iter_mut() {
        close_row(row, tx);
    }
}

/// The transaction's locks go.
pub(crate) fn release(rows: &mut Vec<Row>, tx: TxId)
    ensures { rows.new.items ≡ without_locks_of (tx ∷ []) rows.old.items }
{
    rows.retain(
        |row: &Row| -> bool
            ensures { result ≡ not (tx_in (row.now.1).tx (tx ∷ [])) }
        { tx != row.1.tx },
    );
}

/// Where the transaction's first lock is.
fn place_of(rows: &[Row], tx: TxId) -> Option<usize>
    ensures { result ≡ position (λ r. tx_same tx (r.1).tx) rows.now }
{
    rows.iter().position(|row| tx == row.1.tx)
}

/// Whether a row is the transaction's lock on the anchor.
fn is_lock_of(tx: TxId, anchor: Anchor, row: &Row) -> bool
    ensures { result ≡ tells_lock_of tx anchor row.now }
{
    anchor == row.0 && tx == row.1.tx
}

/// The transaction's lock on the anchor goes.
fn give_up(rows: &mut Vec<Row>, tx: TxId, anchor: Anchor)
    ensures { rows.new.items ≡ without_lock tx anchor rows.old.items }
{
    rows.retain(
        |row: &Row| -> bool
            ensures { result ≡ not (tells_lock_of tx anchor row.now) }
        { !is_lock_of(tx, anchor, row) },
    );
}

/// The first lock of the transaction goes, and its anchor is told.
pub(crate) fn release_next(rows: &mut Vec<Row>, tx: TxId) -> Option<Anchor>
    ensures { GivesUpOne tx result rows.old.items rows.new.items }
{
    let Some(at) = place_of(rows, tx) else {
        return None;
    };
    let anchor = rows[at].0;
    give_up(rows, tx, anchor);
    Some(anchor)
}

/// Whether a row is on the anchor.
fn is_on(anchor: Anchor, row: &Row) -> bool
    ensures { result ≡ anchor_same anchor (row.now).0 }
{
    anchor == row.0
}

/// Whether somebody holds a lock on the anchor.
fn is_held(rows: &[Row], anchor: Anchor) -> bool
    ensures { result ≡ list_any (λ r. anchor_same anchor r.0) rows.now }
{
    rows.iter().any(|row| is_on(anchor, row))
}

/// Whether nobody holds a lock on the anchor.
pub(crate) fn is_free(rows: &[Row], anchor: Anchor) -> bool
    ensures { result ≡ is_held_by_none anchor rows.now }
{
    !is_held(rows, anchor)
}

/// Who holds a lock on the anchor.
pub(crate) fn holders(alloc: Global, rows: &[Row], anchor: Anchor) -> Result<Vec<Holder>, Memory>
    ensures { IfOk result (λ on. on.items ≡ holders_on anchor rows.now) }
{
    let on = rows
        .iter()
        .filter(|row| is_on(anchor, row))
        .map(|row| row.1)
        .collect(alloc);
    match on {
        Ok(on) => Ok(on),
        Err(_) => Err(Memory),
    }
}
