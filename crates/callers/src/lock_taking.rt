//! Calls that add locks, with the room for them.
ghost use Rattle.std.specs.Prelude.{◌≡◌, ◌≤◌, length, IfOk, OnOk, OnErr};
ghost use Rattle.clv_base.specs.Locks.{take_all, split_gap as with_gaps_copied};
ghost use Rattle.lock_table.specs.Rows.{anchors_of};

use clv_base::modes::{Anchor, Need};
use clv_base::names::{Birth, TxId};
use lock_table::{Locks, Memory};
use std::alloc::Global;

/// The anchors of the needs.
fn needed_anchors(alloc: Global, needs: &[Need]) -> Result<Vec<Anchor>, Memory>
    ensures { IfOk result (λ anchors. anchors.items ≡ anchors_of needs.now) }
{
    match needs.iter().map(|need| need.anchor).collect(alloc) {
        Ok(anchors) => Ok(anchors),
        Err(_) => Err(Memory),
    }
}

/// Makes room for the locks that are needed. The rows stay.
fn reserve_needed<L: Locks>(
    alloc: Global,
    locks: &mut L,
    tx: TxId,
    needs: &[Need],
) -> Result<(), Memory>
    ensures ok { OnOk result (length needs.now ≤ L.room locks.new tx (anchors_of needs.now)) }
    ensures rows { L.rows locks.new ≡ L.rows locks.old }
{
    let anchors = needed_anchors(alloc, needs)?;
    locks.reserve(tx, &anchors, needs.len())
}

/// Takes the locks that are needed, and makes room for them first. The only error is want of memory, which leaves the rows.
pub(crate) fn take<L: Locks>(
    alloc: Global,
    locks: &mut L,
    tx: TxId,
    birth: Birth,
    needs: &[Need],
) -> Result<(), Memory>
    ensures ok { OnOk result (L.rows locks.new ≡ take_all tx birth needs.now (L.rows locks.old)) }
    ensures memory { OnErr result (L.rows locks.new ≡ L.rows locks.old) }
{
    reserve_needed(alloc, locks, tx, needs)?;
    locks.take(tx, birth, needs);
    Ok(())
}

/// Copies the gap parts held on an anchor to a new one, and makes room for them first. The only error is want of memory, which leaves the rows.
pub(crate) fn split_gap<L: Locks>(
    locks: &mut L,
    tx: TxId,
    lower: Anchor,
    new: Anchor,
) -> Result<(), Memory>
    ensures ok { OnOk result (L.rows locks.new ≡ with_gaps_copied lower new (L.rows locks.old)) }
    ensures memory { OnErr result (L.rows locks.new ≡ L.rows locks.old) }
{
    let count = locks.gap_count(lower);
    locks.reserve(tx, &[new], count)?;
    locks.split_gap(lower, new);
    Ok(())
}
