//! For whom each successor waits.
ghost use Rattle.std.specs.Prelude.{◌≡◌, ◌≤◌, ◌<◌, ◌+◌, None, Some, length, if◌then◌else◌};
ghost use Rattle.clv_base.specs.declared.names.TxId.{TxId as Tx};
ghost use Rattle.clv_base.specs.Facts.{greater_place};
ghost use Rattle.clv_base.specs.Orders.{tx_same, tx_in, tx_get};
ghost use Rattle.cascade_undo.specs.Counts.{row_at, with_one, with_settled, settled_row, settled_through};

use clv_base::names::TxId;
use tx_table::TxTable;

/// For whom a transaction waits.
#[derive(Clone, Copy)]
pub(crate) struct Waiting {
    /// How many of its predecessors aren't settled.
    pub(crate) undecided: usize,
    /// The greatest LSN of the COMMITs of those that are.
    pub(crate) due: Option<u64>,
}

/// The row of a transaction; one that has none waits for nobody.
pub(crate) fn row_of(rows: &TxTable<Waiting>, tx: TxId) -> Waiting
    ensures { result ≡ row_at tx rows.now.rows }
{
    match rows.get(tx) {
        Some(row) => row,
        None => Waiting {
            undecided: 0,
            due: None,
        },
    }
}

/// The greater of two places that may be none.
fn greater(a: Option<u64>, b: Option<u64>) -> Option<u64>
    ensures { result ≡ greater_place a b }
{
    match (a, b) {
        (None, b) => b,
        (a, None) => a,
        (Some(a), Some(b)) => Some(a.max(b)),
    }
}

/// The row of a successor of these, with one predecessor more.
fn one_more(row: Waiting, preds: &[TxId], commit: Option<u64>) -> Waiting
    requires { row.undecided ≤ length preds.now }
    ensures { result ≡ with_one commit row }
{
    match commit {
        None => Waiting {
            undecided: row.undecided + 1,
            due: row.due,
        },
        Some(lsn) => Waiting {
            undecided: row.undecided,
            due: greater(Some(lsn), row.due),
        },
    }
}

/// Beside these predecessors the transaction has one more, settled at this LSN or not at all. Takes no memory.
pub(crate) fn count_one(rows: &mut TxTable<Waiting>, preds: &[TxId], tx: TxId, commit: Option<u64>)
    requires few { (row_at tx rows.old.rows).undecided ≤ length preds.now }
    requires room { 0 < rows.old.room }
    ensures rows { (t : Tx) → row_at t rows.new.rows ≡ (if tx_same tx t then with_one commit (row_at tx rows.old.rows) else row_at t rows.old.rows) }
    ensures room { rows.old.room ≤ rows.new.room + 1 }
{
    let row = row_of(rows, tx);
    rows.set(tx, one_more(row, preds, commit));
}

/// The row of a successor, one of whose open predecessors gets its COMMIT at this LSN.
fn one_settled(row: Waiting, lsn: u64) -> Waiting
    ensures { result ≡ with_settled lsn row }
{
    Waiting {
        undecided: row.undecided.saturating_sub(1),
        due: greater(Some(lsn), row.due),
    }
}

/// An open predecessor of the transaction gets its COMMIT at this LSN.
fn settle_one(rows: &mut TxTable<Waiting>, tx: TxId, lsn: u64)
    ensures rows { (t : Tx) → tx_get t rows.new.rows ≡ (if tx_same tx t then settled_row lsn (tx_get t rows.old.rows) else tx_get t rows.old.rows) }
    ensures room { rows.new.room ≡ rows.old.room }
{
    match rows.get(tx) {
        Some(row) => rows.replace(tx, one_settled(row, lsn)),
        None => {}
    }
}

/// An open predecessor of these transactions gets its COMMIT at this LSN. Takes no memory.
pub(crate) fn settle_rows(rows: &mut TxTable<Waiting>, succs: &[TxId], lsn: u64)
    ensures rows { (t : Tx) → tx_get t rows.new.rows ≡ settled_through lsn succs.now t (tx_get t rows.old.rows) }
    ensures room { rows.new.room ≡ rows.old.room }
{
    for tx in succs {
        settle_one(rows, *tx, lsn);
    }
}

/// The rows of these transactions go. Takes no memory.
pub(crate) fn drop_rows(rows: &mut TxTable<Waiting>, set: &[TxId])
    ensures rows { (t : Tx) → tx_get t rows.new.rows ≡ (if tx_in t set.now then None else tx_get t rows.old.rows) }
    ensures room { rows.old.room ≤ rows.new.room }
{
    for tx in set {
        rows.remove(*tx);
    }
}
