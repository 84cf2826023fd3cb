//! The holders of all anchors.
ghost use Rattle.std.specs.Prelude.{◌≡◌, ◌≤◌, ◌<◌, ◌+◌, true, [], map, length, IfOk};
ghost use Rattle.clv_base.specs.declared.modes.Anchor.{Anchor as AnAnchor};
ghost use Rattle.std.specs.List.{filter};
ghost use Rattle.clv_base.specs.Modes.{is_held};
ghost use Rattle.clv_base.specs.Locks.{take_one as with_lock, close_holder};
ghost use Rattle.lock_table.specs.Rows.{without_lock};
ghost use Rattle.lock_index.specs.Groups.{rows_of, group_at, Apart, is_none};
ghost use Rattle.lock_index.specs.Rows.{groups as groups_of, spare_on};
ghost use Rattle.lock_index.specs.Writes.{take_here, with_each, there, leave as without};

use crate::group;
use crate::group::is_gap_held;
use crate::key::{Key, make_key};
use clv_base::modes::{Anchor, Holder};
use clv_base::names::TxId;
use indexmap::IndexMap;
use lock_table::Memory;
use std::alloc::Global;

/// The holders on an anchor.
pub(crate) fn on(groups: &IndexMap<Key, Vec<Holder>>, anchor: Anchor) -> &[Holder]
    ensures { result.now ≡ group_at anchor (groups_of groups.now.entries) }
{
    match groups.get(&make_key(anchor)) {
        Some(holders) => holders.as_slice(),
        None => &[],
    }
}

/// Puts a holder on an anchor, or joins its mode to the transaction's that is there.
pub(crate) fn put_on(groups: &mut IndexMap<Key, Vec<Holder>>, anchor: Anchor, holder: Holder)
    requires apart { Apart (groups_of groups.old.entries) }
    requires room { 0 < spare_on anchor groups.old.entries }
    ensures rows { rows_of (groups_of groups.new.entries) ≡ with_lock anchor holder (rows_of (groups_of groups.old.entries)) }
    ensures apart { Apart (groups_of groups.new.entries) }
    ensures room { (a : AnAnchor) → spare_on a groups.old.entries ≤ spare_on a groups.new.entries + 1 }
{
    let Some(holders) = groups.get_mut(&make_key(anchor)) else {
        unreachable!()
    };
    group::put(holders, holder);
}

/// The transaction's holder on an anchor becomes closed.
pub(crate) fn close_on(groups: &mut IndexMap<Key, Vec<Holder>>, anchor: Anchor, tx: TxId)
    requires { Apart (groups_of groups.old.entries) }
    ensures groups { groups_of groups.new.entries ≡ with_each (there anchor (map (close_holder tx))) (groups_of groups.old.entries) }
    ensures room { (a : AnAnchor) → spare_on a groups.old.entries ≤ spare_on a groups.new.entries }
{
    let Some(holders) = groups.get_mut(&make_key(anchor)) else {
        return;
    };
    group::close(holders, tx);
}

/// The transaction's holder on an anchor goes, and the anchor with the last.
pub(crate) fn leave_on(groups: &mut IndexMap<Key, Vec<Holder>>, anchor: Anchor, tx: TxId)
    requires { Apart (groups_of groups.old.entries) }
    ensures rows { rows_of (groups_of groups.new.entries) ≡ without_lock tx anchor (rows_of (groups_of groups.old.entries)) }
    ensures apart { Apart (groups_of groups.new.entries) }
{
    if take_out(groups, anchor, tx) {
        forget(groups, anchor);
    }
}

/// The transaction's holder on an anchor goes. True only where nobody is left there.
fn take_out(groups: &mut IndexMap<Key, Vec<Holder>>, anchor: Anchor, tx: TxId) -> bool
    requires { Apart (groups_of groups.old.entries) }
    ensures groups { groups_of groups.new.entries ≡ with_each (there anchor (without tx)) (groups_of groups.old.entries) }
    ensures nobody { result ≡ true → group_at anchor (groups_of groups.new.entries) ≡ [] }
{
    let Some(holders) = groups.get_mut(&make_key(anchor)) else {
        return false;
    };
    group::leave(holders, tx);
    holders.is_empty()
}

/// An anchor goes that nobody holds a lock on.
fn forget(groups: &mut IndexMap<Key, Vec<Holder>>, anchor: Anchor)
    requires apart { Apart (groups_of groups.old.entries) }
    requires nobody { group_at anchor (groups_of groups.old.entries) ≡ [] }
    ensures rows { rows_of (groups_of groups.new.entries) ≡ rows_of (groups_of groups.old.entries) }
    ensures apart { Apart (groups_of groups.new.entries) }
{
    groups.swap_remove(&make_key(anchor));
}

/// How many hold the anchor's gap.
pub(crate) fn gap_count(groups: &IndexMap<Key, Vec<Holder>>, anchor: Anchor) -> usize
    ensures { result ≡ length (filter (λ h. is_held (h.mode).gap) (group_at anchor (groups_of groups.now.entries))) }
{
    on(groups, anchor)
        .iter()
        .filter(|holder| is_gap_held(*holder))
        .count()
}

/// The holders on an anchor, in a list of their own.
pub(crate) fn holders(
    alloc: Global,
    groups: &IndexMap<Key, Vec<Holder>>,
    anchor: Anchor,
) -> Result<Vec<Holder>, Memory>
    ensures { IfOk result (λ on. on.items ≡ group_at anchor (groups_of groups.now.entries)) }
{
    match on(groups, anchor).iter().copied().collect(alloc) {
        Ok(on) => Ok(on),
        Err(_) => Err(Memory),
    }
}

/// Whether nobody holds a lock on the anchor.
pub(crate) fn is_free(groups: &IndexMap<Key, Vec<Holder>>, anchor: Anchor) -> bool
    ensures { result ≡ is_none (group_at anchor (groups_of groups.now.entries)) }
{
    on(groups, anchor).first().is_none()
}
