//! Places for new pairs.
ghost use Rattle.std.specs.Prelude.{◌≡◌, ◌≤◌, ◌+◌, true, length, OnOk, vec_capacity};
ghost use Rattle.clv_base.specs.declared.names.TxId.{TxId as Tx};
ghost use Rattle.clv_base.specs.Orders.{tx_get, tx_in};
ghost use Rattle.tx_table.specs.Lists.{list_in, room_in};

use crate::room::hold;
use crate::waiting::Waiting;
use clv_base::names::TxId;
use std::alloc::AllocError;
use tx_table::{TxLists, TxTable};

/// Makes places in lists of predecessors and of successors, for a transaction that may become a successor of these. The lists stay.
pub(crate) fn reserve_lists(
    pairs: &mut TxLists,
    turned: &mut TxLists,
    tx: TxId,
    preds: &[TxId],
) -> Result<(), AllocError>
    ensures ahead { OnOk result (length preds.now ≤ room_in tx pairs.new.rooms) }
    ensures behind { OnOk result ((p : Tx) → tx_in p preds.now ≡ true → 1 ≤ room_in p turned.new.rooms) }
    ensures pairs { (t : Tx) → list_in t pairs.new.lists ≡ list_in t pairs.old.lists }
    ensures turned { (p : Tx) → list_in p turned.new.lists ≡ list_in p turned.old.lists }
{
    pairs.reserve(tx, preds.len())?;
    turned.reserve_each(preds, 1)
}

/// Makes room for the rows of so many new pairs, beside so many that there are, and to mark and to follow the successors of all of them.
pub(crate) fn reserve_rows(
    rows: &mut TxTable<Waiting>,
    marks: &mut Vec<TxId>,
    queue: &mut Vec<TxId>,
    count: usize,
    more: usize,
) -> Result<(), AllocError>
    ensures ok { OnOk result ((more ≤ rows.new.room) × (count + 2 + more ≤ vec_capacity marks.new) × (count + 2 + more ≤ vec_capacity queue.new)) }
    ensures rows { (t : Tx) → tx_get t rows.new.rows ≡ tx_get t rows.old.rows }
    ensures marks { marks.new.items ≡ marks.old.items }
    ensures kept { (rows.old.room ≤ rows.new.room) × (vec_capacity marks.old ≤ vec_capacity marks.new) × (vec_capacity queue.old ≤ vec_capacity queue.new) }
{
    let Some(pairs) = count.checked_add(more) else {
        return Err(AllocError);
    };
    let Some(places) = pairs.checked_add(2) else {
        return Err(AllocError);
    };
    rows.reserve(more)?;
    hold(marks, places)?;
    hold(queue, places)
}
