//! Room is made for more holders.
ghost use Rattle.std.specs.Prelude.{◌≡◌, ◌≤◌, None, OnOk, IfSome};
ghost use Rattle.std.specs.List.{All};
ghost use Rattle.clv_base.specs.declared.modes.Anchor.{Anchor as AnAnchor};
ghost use Rattle.lock_index.specs.Groups.{rows_of, Apart, NoneAt};
ghost use Rattle.lock_index.specs.Rows.{groups as groups_of, spare_on};

use crate::key::{Key, make_key};
use clv_base::modes::{Anchor, Holder};
use indexmap::IndexMap;
use lock_table::Memory;
use std::alloc::Global;

/// Adds an anchor that the map doesn't have, with room for so many holders.
fn add_anchor(
    groups: &mut IndexMap<Key, Vec<Holder>>,
    alloc: Global,
    anchor: Anchor,
    count: usize,
) -> Result<(), Memory>
    requires apart { Apart (groups_of groups.old.entries) }
    requires missing { NoneAt anchor (groups_of groups.old.entries) }
    ensures ok { OnOk result (count ≤ spare_on anchor groups.new.entries) }
    ensures rows { rows_of (groups_of groups.new.entries) ≡ rows_of (groups_of groups.old.entries) }
    ensures apart { Apart (groups_of groups.new.entries) }
    ensures room { (a : AnAnchor) → spare_on a groups.old.entries ≤ spare_on a groups.new.entries }
{
    let mut holders = Vec::new(alloc);
    match holders.reserve(count) {
        Ok(()) => {}
        Err(_) => return Err(Memory),
    }
    match groups.insert(make_key(anchor), holders) {
        Ok(_) => Ok(()),
        Err(_) => Err(Memory),
    }
}

/// Makes room for so many holders more on an anchor, where the map has it.
fn reserve_there(
    groups: &mut IndexMap<Key, Vec<Holder>>,
    anchor: Anchor,
    count: usize,
) -> Option<Result<(), Memory>>
    requires { Apart (groups_of groups.old.entries) }
    ensures ok { IfSome result (λ r. OnOk r (count ≤ spare_on anchor groups.new.entries)) }
    ensures missing { result ≡ None → NoneAt anchor (groups_of groups.new.entries) }
    ensures groups { groups_of groups.new.entries ≡ groups_of groups.old.entries }
    ensures room { (a : AnAnchor) → spare_on a groups.old.entries ≤ spare_on a groups.new.entries }
{
    let Some(holders) = groups.get_mut(&make_key(anchor)) else {
        return None;
    };
    match holders.reserve(count) {
        Ok(()) => Some(Ok(())),
        Err(_) => Some(Err(Memory)),
    }
}

/// Makes room for so many holders more on an anchor.
fn reserve_on(
    groups: &mut IndexMap<Key, Vec<Holder>>,
    alloc: Global,
    anchor: Anchor,
    count: usize,
) -> Result<(), Memory>
    requires { Apart (groups_of groups.old.entries) }
    ensures ok { OnOk result (count ≤ spare_on anchor groups.new.entries) }
    ensures rows { rows_of (groups_of groups.new.entries) ≡ rows_of (groups_of groups.old.entries) }
    ensures apart { Apart (groups_of groups.new.entries) }
    ensures room { (a : AnAnchor) → spare_on a groups.old.entries ≤ spare_on a groups.new.entries }
{
    match reserve_there(groups, anchor, count) {
        Some(done) => done,
        None => add_anchor(groups, alloc, anchor, count),
    }
}

/// Makes room for so many holders more on each of the anchors.
pub(crate) fn reserve(
    groups: &mut IndexMap<Key, Vec<Holder>>,
    alloc: Global,
    anchors: &[Anchor],
    count: usize,
) -> Result<(), Memory>
    requires { Apart (groups_of groups.old.entries) }
    ensures ok { OnOk result (All (λ a. count ≤ spare_on a groups.new.entries) anchors.now) }
    ensures rows { rows_of (groups_of groups.new.entries) ≡ rows_of (groups_of groups.old.entries) }
    ensures apart { Apart (groups_of groups.new.entries) }
    ensures room { (a : AnAnchor) → spare_on a groups.old.entries ≤ spare_on a groups.new.entries }
{
    for anchor in anchors {
        reserve_on(groups, alloc, *anchor, count)?;
    }
    Ok(())
}
