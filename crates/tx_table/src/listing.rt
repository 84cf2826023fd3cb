//! A map from transactions to lists that rise.
ghost use Rattle.std.specs.Prelude.{◌≡◌, ◌≤◌, ◌<◌, ◌+◌, true, not, [], None, OnOk, IfSome, if◌then◌else◌};
ghost use Rattle.std.specs.List.{filter};
ghost use Rattle.std.specs.List.Sorted.{IsStrictlySortedBy};
ghost use Rattle.std.specs.Option.{option_map_or};
ghost use Rattle.clv_base.specs.declared.names.TxId.{TxId as Tx};
ghost use Rattle.clv_base.specs.Orders.{tx_cmp, tx_same, tx_in, tx_insert};
ghost use Rattle.tx_table.specs.Lists.{list_in, room_in, lists_of, rooms_of};

use crate::key::Key;
use crate::sorted::{insert, remove};
use clv_base::names::TxId;
use std::alloc::{AllocError, Global};
use std::collections::HashMap;

/// The list of a transaction.
pub(crate) fn on(lists: &HashMap<Key, Vec<TxId>>, tx: TxId) -> &[TxId]
    ensures { result.now ≡ list_in tx (lists_of lists.now.entries) }
{
    match lists.get(&Key::new(tx)) {
        Some(list) => list.as_slice(),
        None => &[],
    }
}

/// Puts one into the list of a transaction, unless it is there; says whether it is new.
pub(crate) fn put_in(lists: &mut HashMap<Key, Vec<TxId>>, tx: TxId, member: TxId) -> bool
    requires rising { IsStrictlySortedBy tx_cmp (list_in tx (lists_of lists.old.entries)) }
    requires room { 0 < room_in tx (rooms_of lists.old.entries) }
    ensures new { result ≡ not (tx_in member (list_in tx (lists_of lists.old.entries))) }
    ensures lists { (t : Tx) → list_in t (lists_of lists.new.entries) ≡ (if tx_same tx t then tx_insert member (list_in t (lists_of lists.old.entries)) else list_in t (lists_of lists.old.entries)) }
    ensures room { (t : Tx) → room_in t (rooms_of lists.old.entries) ≤ room_in t (rooms_of lists.new.entries) + (if tx_same tx t then 1 else 0) }
{
    let Some(list) = lists.get_mut(&Key::new(tx)) else {
        unreachable!()
    };
    insert(list, member)
}

/// Takes one out of the list of a transaction. True only where nobody is left there.
fn take_out(lists: &mut HashMap<Key, Vec<TxId>>, tx: TxId, member: TxId) -> bool
    requires { IsStrictlySortedBy tx_cmp (list_in tx (lists_of lists.old.entries)) }
    ensures lists { (t : Tx) → list_in t (lists_of lists.new.entries) ≡ (if tx_same tx t then filter (λ x. not (tx_same x member)) (list_in t (lists_of lists.old.entries)) else list_in t (lists_of lists.old.entries)) }
    ensures nobody { result ≡ true → list_in tx (lists_of lists.new.entries) ≡ [] }
{
    let Some(list) = lists.get_mut(&Key::new(tx)) else {
        return false;
    };
    remove(list, &member);
    list.is_empty()
}

/// A list goes that nobody is in.
fn drop_list(lists: &mut HashMap<Key, Vec<TxId>>, tx: TxId)
    requires { list_in tx (lists_of lists.old.entries) ≡ [] }
    ensures { (t : Tx) → list_in t (lists_of lists.new.entries) ≡ list_in t (lists_of lists.old.entries) }
{
    lists.remove(&Key::new(tx));
}

/// Takes one out of the list of a transaction, which goes with the last.
pub(crate) fn leave_in(lists: &mut HashMap<Key, Vec<TxId>>, tx: TxId, member: TxId)
    requires { IsStrictlySortedBy tx_cmp (list_in tx (lists_of lists.old.entries)) }
    ensures { (t : Tx) → list_in t (lists_of lists.new.entries) ≡ (if tx_same tx t then filter (λ x. not (tx_same x member)) (list_in t (lists_of lists.old.entries)) else list_in t (lists_of lists.old.entries)) }
{
    if take_out(lists, tx, member) {
        drop_list(lists, tx);
    }
}

/// The list of a transaction goes where nobody is in it.
pub(crate) fn drop_empty(lists: &mut HashMap<Key, Vec<TxId>>, tx: TxId)
    ensures { (t : Tx) → list_in t (lists_of lists.new.entries) ≡ list_in t (lists_of lists.old.entries) }
{
    if on(lists, tx).is_empty() {
        drop_list(lists, tx);
    }
}

/// The list of a transaction goes, and is given.
pub(crate) fn take_list(lists: &mut HashMap<Key, Vec<TxId>>, tx: TxId) -> Option<Vec<TxId>>
    ensures taken { option_map_or (λ v. v.items) result [] ≡ list_in tx (lists_of lists.old.entries) }
    ensures lists { (t : Tx) → list_in t (lists_of lists.new.entries) ≡ (if tx_same tx t then [] else list_in t (lists_of lists.old.entries)) }
{
    lists.remove(&Key::new(tx))
}

/// Adds a list for so many to a transaction that has neither a list nor room.
fn add_list(
    lists: &mut HashMap<Key, Vec<TxId>>,
    alloc: Global,
    tx: TxId,
    count: usize,
) -> Result<(), AllocError>
    requires missing { (list_in tx (lists_of lists.old.entries) ≡ []) × (room_in tx (rooms_of lists.old.entries) ≡ 0) }
    ensures ok { OnOk result (count ≤ room_in tx (rooms_of lists.new.entries)) }
    ensures lists { (t : Tx) → list_in t (lists_of lists.new.entries) ≡ list_in t (lists_of lists.old.entries) }
    ensures room { (t : Tx) → room_in t (rooms_of lists.old.entries) ≤ room_in t (rooms_of lists.new.entries) }
{
    let mut list = Vec::new(alloc);
    match list.reserve(count) {
        Ok(()) => {}
        Err(_) => return Err(AllocError),
    }
    match lists.insert(Key::new(tx), list) {
        Ok(_) => Ok(()),
        Err(_) => Err(AllocError),
    }
}

/// Makes room for so many more in the list of a transaction, where it has one.
fn reserve_there(
    lists: &mut HashMap<Key, Vec<TxId>>,
    tx: TxId,
    count: usize,
) -> Option<Result<(), AllocError>>
    ensures ok { IfSome result (λ r. OnOk r (count ≤ room_in tx (rooms_of lists.new.entries))) }
    ensures missing { result ≡ None → (list_in tx (lists_of lists.new.entries) ≡ []) × (room_in tx (rooms_of lists.new.entries) ≡ 0) }
    ensures lists { (t : Tx) → list_in t (lists_of lists.new.entries) ≡ list_in t (lists_of lists.old.entries) }
    ensures room { (t : Tx) → room_in t (rooms_of lists.old.entries) ≤ room_in t (rooms_of lists.new.entries) }
{
    let Some(list) = lists.get_mut(&Key::new(tx)) else {
        return None;
    };
    match list.reserve(count) {
        Ok(()) => Some(Ok(())),
        Err(_) => Some(Err(AllocError)),
    }
}

/// Makes room for so many more in the list of a transaction.
pub(crate) fn reserve_in(
    lists: &mut HashMap<Key, Vec<TxId>>,
    alloc: Global,
    tx: TxId,
    count: usize,
) -> Result<(), AllocError>
    ensures ok { OnOk result (count ≤ room_in tx (rooms_of lists.new.entries)) }
    ensures lists { (t : Tx) → list_in t (lists_of lists.new.entries) ≡ list_in t (lists_of lists.old.entries) }
    ensures room { (t : Tx) → room_in t (rooms_of lists.old.entries) ≤ room_in t (rooms_of lists.new.entries) }
{
    match reserve_there(lists, tx, count) {
        Some(done) => done,
        None => add_list(lists, alloc, tx, count),
    }
}
