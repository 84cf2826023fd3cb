//! The rows of a table in a list.
ghost use Rattle.std.specs.Prelude.{◌≡◌, ◌≤◌, ◌<◌, ◌+◌, length, not, position, vec_len, vec_capacity};
ghost use Rattle.std.specs.Ordering.{is_gt};
ghost use Rattle.clv_base.specs.Locks.{row_cmp, take_one as with_lock, take_all as with_locks};

use crate::join;
use clv_base::modes::{Anchor, Holder, Need};
use clv_base::names::{Birth, TxId};
use std::cmp::Ordering;

/// An anchor, and who holds what on it.
pub(crate) type Row = (Anchor, Holder);

/// Where a transaction's lock on an anchor stands, beside a row.
pub(crate) fn compare(anchor: Anchor, tx: TxId, row: &Row) -> Ordering
    ensures { result ≡ row_cmp anchor tx row.now }
{
    anchor.cmp(&row.0).then(tx.cmp(&row.1.tx))
}

/// The first row that stands at or behind the place of a transaction's lock on an anchor.
fn place_of(rows: &[Row], anchor: Anchor, tx: TxId) -> Option<usize>
    ensures { result ≡ position (λ r. not (is_gt (row_cmp anchor tx r))) rows.now }
{
    rows.iter()
        .position(|row| !compare(anchor, tx, row).is_gt())
}

/// Adds a lock at its place, or joins its mode to the one that the transaction has on the anchor.
pub(crate) fn take_one(rows: &mut Vec<Row>, anchor: Anchor, holder: Holder)
    requires { vec_len rows.old < vec_capacity rows.old }
    ensures rows { rows.new.items ≡ with_lock anchor holder rows.old.items }
    ensures room { (vec_capacity rows.new ≡ vec_capacity rows.old) × (vec_len rows.new ≤ vec_len rows.old + 1) }
{
    let Some(at) = place_of(rows, anchor, holder.tx) else {
        rows.push_reserved((anchor, holder));
        return;
    };
    let held = rows[at];
    if compare(anchor, holder.tx, &held).is_eq() {
        let mode = join(held.1.mode, holder.mode);
        rows[at] = (anchor, Holder { mode, ..held.1 });
        return;
    }
    let Ok(()) = rows.insert(at, (anchor, holder)) else {
        unreachable!()
    };
}

/// Adds the locks that a transaction needs, one after another.
pub(crate) fn take_all(rows: &mut Vec<Row>, tx: TxId, birth: Birth, needs: &[Need])
    requires { vec_len rows.old + length needs.now ≤ vec_capacity rows.old }
    ensures rows { rows.new.items ≡ with_locks tx birth needs.now rows.old.items }
    ensures room { (vec_capacity rows.new ≡ vec_capacity rows.old) × (vec_len rows.new ≤ vec_len rows.old + length needs.now) }
{
    for need in needs {
        let holder = Holder {
            tx,
            birth,
            mode: need.mode,
            closed: false,
        };
        take_one(rows, need.anchor, holder);
    }
}
