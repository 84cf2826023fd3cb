//! The lists.

use crate::key::Key;
use crate::listing::{drop_empty, leave_in, on, put_in, reserve_in, take_list};
use clv_base::names::TxId;
use std::alloc::{AllocError, Global};
use std::collections::HashMap;
use std::marker::Model;

/// A list of transactions for each of some transactions, each list rising. A call looks at one list, by one look into a hash map, and what it
/// moves is in that list.
#[derive(Drop)]
pub struct TxLists {
    alloc: Global,
    lists: HashMap<Key, Vec<TxId>>,
}

impl Model for TxLists {
    ghost use Rattle.tx_table.specs.Lists.{ListRows, lists_of, rooms_of, AllRise};

    ghost Value = { ListRows };

    ghost view = { λ s. record { lists = lists_of s.lists.entries; rooms = rooms_of s.lists.entries } };

    ghost invariant = { λ s. AllRise (lists_of s.lists.entries) };
}

impl TxLists {
    ghost use Rattle.std.specs.Prelude.{◌≡◌, ◌≤◌, ◌<◌, ◌+◌, true, not, [], OnOk, if◌then◌else◌};
    ghost use Rattle.std.specs.List.{filter};
    ghost use Rattle.std.specs.List.Sorted.{IsStrictlySortedBy};
    ghost use Rattle.std.specs.Option.{option_map_or};
    ghost use Rattle.clv_base.specs.declared.names.TxId.{TxId as Tx};
    ghost use Rattle.clv_base.specs.Orders.{tx_cmp, tx_same, tx_in, tx_insert};
    ghost use Rattle.tx_table.specs.Lists.{list_in, room_in};

    /// No list. Takes no memory.
    pub fn new(alloc: Global) -> Self
        ensures { result.lists ≡ [] }
    {
        TxLists {
            alloc,
            lists: HashMap::new(alloc),
        }
    }

    /// The list of a transaction, which rises.
    pub fn get(&self, tx: TxId) -> &[TxId]
        ensures txs { result.now ≡ list_in tx self.now.lists }
        ensures rising { IsStrictlySortedBy tx_cmp (list_in tx self.now.lists) }
    {
        on(&self.lists, tx)
    }

    /// Makes room for so many more in the list of a transaction. The lists stay, and no room shrinks.
    pub fn reserve(&mut self, tx: TxId, count: usize) -> Result<(), AllocError>
        ensures ok { OnOk result (count ≤ room_in tx self.new.rooms) }
        ensures lists { (t : Tx) → list_in t self.new.lists ≡ list_in t self.old.lists }
        ensures room { (t : Tx) → room_in t self.old.rooms ≤ room_in t self.new.rooms }
    {
        reserve_in(&mut self.lists, self.alloc, tx, count)
    }

    /// Makes room for so many more in the list of each of these transactions. The lists stay, and no room shrinks.
    pub fn reserve_each(&mut self, txs: &[TxId], count: usize) -> Result<(), AllocError>
        ensures ok { OnOk result ((t : Tx) → tx_in t txs.now ≡ true → count ≤ room_in t self.new.rooms) }
        ensures lists { (t : Tx) → list_in t self.new.lists ≡ list_in t self.old.lists }
        ensures room { (t : Tx) → room_in t self.old.rooms ≤ room_in t self.new.rooms }
    {
        for tx in txs {
            self.reserve(*tx, count)?;
        }
        Ok(())
    }

    /// Puts one into the list of a transaction, unless it is there; says whether it is new. Takes no memory.
    pub fn insert(&mut self, tx: TxId, member: TxId) -> bool
        requires { 0 < room_in tx self.old.rooms }
        ensures new { result ≡ not (tx_in member (list_in tx self.old.lists)) }
        ensures lists { (t : Tx) → list_in t self.new.lists ≡ (if tx_same tx t then tx_insert member (list_in t self.old.lists) else list_in t self.old.lists) }
        ensures room { (t : Tx) → room_in t self.old.rooms ≤ room_in t self.new.rooms + (if tx_same tx t then 1 else 0) }
    {
        put_in(&mut self.lists, tx, member)
    }

    /// Takes one out of the list of a transaction, and the list with the last. Takes no memory.
    pub fn leave(&mut self, tx: TxId, member: TxId)
        ensures { (t : Tx) → list_in t self.new.lists ≡ (if tx_same tx t then filter (λ x. not (tx_same x member)) (list_in t self.old.lists) else list_in t self.old.lists) }
    {
        leave_in(&mut self.lists, tx, member);
    }

    /// Takes the list of a transaction out, and gives it. Takes no memory.
    pub fn take(&mut self, tx: TxId) -> Option<Vec<TxId>>
        ensures taken { option_map_or (λ v. v.items) result [] ≡ list_in tx self.old.lists }
        ensures rising { IsStrictlySortedBy tx_cmp (list_in tx self.old.lists) }
        ensures lists { (t : Tx) → list_in t self.new.lists ≡ (if tx_same tx t then [] else list_in t self.old.lists) }
    {
        take_list(&mut self.lists, tx)
    }

    /// The list of a transaction goes where nobody is in it. Takes no memory.
    pub fn drop_empty(&mut self, tx: TxId)
        ensures { (t : Tx) → list_in t self.new.lists ≡ list_in t self.old.lists }
    {
        drop_empty(&mut self.lists, tx);
    }
}
