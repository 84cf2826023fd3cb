//! The locks of a granted operation.
ghost use Rattle.std.specs.Prelude.{◌≡◌, ◌≤◌, ◌+◌, ◌++◌, [], ◌∷◌, List, length, Some, OnOk, IfOk, IfSome};
ghost use Rattle.clv_base.specs.declared.names.TxId.{TxId as Tx};
ghost use Rattle.clv_base.specs.declared.modes.Anchor.{Anchor as Place};
ghost use Rattle.clv_base.specs.declared.modes.Anchor.TheVariants.{At};
ghost use Rattle.clv_base.specs.Locks.{take_all as with_locks, split_gap as with_gaps_copied};
ghost use Rattle.lock_table.specs.Rows.{gaps_held, anchors_of};
ghost use Rattle.shard_ops.specs.Effects.{locks_after, HasLockRoom, new_key};

use crate::Insert;
use clv_base::modes::{Anchor, Mode, Need, Part};
use clv_base::names::{Birth, TxId};
use lock_table::{Locks, Memory, takes_few_gaps};
use std::alloc::{AllocError, Global};
use std::slice::from_ref;

/// Puts the anchors of the needs behind the others.
fn push_anchors(anchors: &mut Vec<Anchor>, needs: &[Need]) -> Result<(), AllocError>
    ensures { OnOk result (anchors.new.items ≡ anchors.old.items ++ anchors_of needs.now) }
{
    for need in needs {
        anchors.push(need.anchor)?;
    }
    Ok(())
}

/// The anchors of the needs.
fn needed_anchors(alloc: Global, needs: &[Need]) -> Result<Vec<Anchor>, AllocError>
    ensures { IfOk result (λ anchors. anchors.items ≡ anchors_of needs.now) }
{
    let mut anchors = Vec::new(alloc);
    push_anchors(&mut anchors, needs)?;
    Ok(anchors)
}

/// How many locks an insert may add, with so many needs and so many gap parts on its lower anchor before.
fn insert_count(needs: usize, gaps: usize) -> Option<usize>
    ensures { IfSome result (λ count. count ≡ needs + (gaps + needs) + 1) }
{
    let both = gaps.checked_add(needs)?;
    let all = needs.checked_add(both)?;
    all.checked_add(1)
}

/// Makes room for the locks of an operation that inserts no record. For one lock no list is made.
fn reserve_needed<L: Locks>(
    alloc: Global,
    locks: &mut L,
    tx: TxId,
    needs: &[Need],
) -> Result<(), Memory>
    ensures ok { OnOk result (length needs.now ≤ L.room locks.new tx (anchors_of needs.now)) }
    ensures rows { L.rows locks.new ≡ L.rows locks.old }
    ensures room { (t : Tx) (on : List Place) → L.room locks.old t on ≤ L.room locks.new t on }
{
    if let [need] = needs {
        return locks.reserve(tx, from_ref(&need.anchor), 1);
    }
    match needed_anchors(alloc, needs) {
        Ok(anchors) => locks.reserve(tx, &anchors, needs.len()),
        Err(_) => Err(Memory),
    }
}

/// Makes room for the locks on a record that is inserted, and for copies of the gap parts of its lower anchor.
fn reserve_insert<L: Locks>(
    locks: &mut L,
    tx: TxId,
    needs: usize,
    insert: Insert,
) -> Result<(), Memory>
    ensures ok { OnOk result (needs + (gaps_held insert.lower (L.rows locks.new) + needs) + 1 ≤ L.room locks.new tx (At insert.key ∷ [])) }
    ensures rows { L.rows locks.new ≡ L.rows locks.old }
    ensures room { (t : Tx) (on : List Place) → L.room locks.old t on ≤ L.room locks.new t on }
{
    match insert_count(needs, locks.gap_count(insert.lower)) {
        Some(count) => locks.reserve(tx, &[Anchor::At(insert.key)], count),
        None => Err(Memory),
    }
}

/// Makes room for the locks of a granted operation. The locks stay as they are, and room never shrinks; the only error is want of memory.
pub fn reserve_locks<L: Locks>(
    alloc: Global,
    locks: &mut L,
    tx: TxId,
    needs: &[Need],
    insert: Option<Insert>,
) -> Result<(), Memory>
    ensures ok { OnOk result (HasLockRoom (L.room locks.new) tx needs.now insert (L.rows locks.new)) }
    ensures rows { L.rows locks.new ≡ L.rows locks.old }
    ensures room { (t : Tx) (on : List Place) → L.room locks.old t on ≤ L.room locks.new t on }
{
    match reserve_needed(alloc, locks, tx, needs) {
        Ok(()) => {}
        Err(memory) => return Err(memory),
    }
    match insert {
        Some(insert) => reserve_insert(locks, tx, needs.len(), insert),
        None => Ok(()),
    }
}

/// The gap of the lower anchor is split by a new record: its gap parts are copied, and the record's key is locked.
fn split<L: Locks>(locks: &mut L, tx: TxId, birth: Birth, insert: Insert)
    requires { gaps_held insert.lower (L.rows locks.old) + 1 ≤ L.room locks.old tx (At insert.key ∷ []) }
    ensures { L.rows locks.new ≡ with_locks tx birth (new_key insert.key) (with_gaps_copied insert.lower (At insert.key) (L.rows locks.old)) }
{
    let new = Anchor::At(insert.key);
    locks.split_gap(insert.lower, new);
    let mode = Mode {
        key: Part::X,
        gap: Part::N,
    };
    locks.take(tx, birth, &[Need { anchor: new, mode }]);
}

/// Takes the locks of a granted operation, for which there is room. Takes no memory.
pub fn take_locks<L: Locks>(
    locks: &mut L,
    tx: TxId,
    birth: Birth,
    needs: &[Need],
    insert: Option<Insert>,
)
    requires { HasLockRoom (L.room locks.old) tx needs.now insert (L.rows locks.old) }
    ensures { L.rows locks.new ≡ locks_after tx birth needs.now insert (L.rows locks.old) }
{
    locks.take(tx, birth, needs);
    if let Some(insert) = insert {
        takes_few_gaps();
        split(locks, tx, birth, insert);
    }
}
