//! The table.

use crate::key::Key;
use clv_base::names::TxId;
use std::alloc::{AllocError, Global};
use std::collections::HashMap;
use std::marker::Model;

/// A value for each of some transactions. Each call but `reserve` takes the time of one look into a hash map.
#[derive(Drop)]
pub struct TxTable<V: Copy> {
    rows: HashMap<Key, V>,
}

impl<V: Copy> Model for TxTable<V> {
    ghost use Rattle.std.specs.HashMap.{spare};
    ghost use Rattle.tx_table.specs.Rows.{TxRows};
    ghost use Rattle.tx_table.specs.Keys.{by_name};

    ghost Value = { TxRows V };

    ghost view = { λ s. record { rows = by_name s.rows.entries; room = spare s.rows } };
}

impl<V: Copy> TxTable<V> {
    ghost use Rattle.std.specs.Prelude.{◌≡◌, ◌≤◌, ◌<◌, ◌+◌, None, Some, IsSome, OnOk, OnErr, if◌then◌else◌};
    ghost use Rattle.clv_base.specs.declared.names.TxId.{TxId as Tx};
    ghost use Rattle.clv_base.specs.Orders.{tx_same, tx_get};

    /// The table that knows of no transaction. Takes no memory.
    pub fn new(alloc: Global) -> Self
        ensures { (t : Tx) → tx_get t result.rows ≡ None }
    {
        TxTable {
            rows: HashMap::new(alloc),
        }
    }

    /// The value of a transaction.
    pub fn get(&self, tx: TxId) -> Option<V>
        ensures { result ≡ tx_get tx self.now.rows }
    {
        self.rows.get(&Key::new(tx)).copied()
    }

    /// For how many transactions more there is room.
    pub fn room(&self) -> usize
        ensures { result ≡ self.now.room }
    {
        self.rows.capacity() - self.rows.len()
    }

    /// Makes room for the values of so many transactions more. An `Err` leaves all as it was.
    pub fn reserve(&mut self, count: usize) -> Result<(), AllocError>
        ensures ok { OnOk result (count ≤ self.new.room) }
        ensures err { OnErr result (self.new.rows ≡ self.old.rows) }
        ensures room { self.old.room ≤ self.new.room }
        ensures rows { (t : Tx) → tx_get t self.new.rows ≡ tx_get t self.old.rows }
    {
        self.rows.reserve(count)
    }

    /// Sets the value of a transaction. Takes no memory.
    pub fn set(&mut self, tx: TxId, value: V)
        requires { 0 < self.old.room }
        ensures rows { (t : Tx) → tx_get t self.new.rows ≡ (if tx_same tx t then Some value else tx_get t self.old.rows) }
        ensures room { self.old.room ≤ self.new.room + 1 }
    {
        let Ok(_) = self.rows.insert(Key::new(tx), value) else {
            unreachable!()
        };
    }

    /// Sets the value of a transaction that has one. Takes no memory.
    pub fn replace(&mut self, tx: TxId, value: V)
        requires { IsSome (tx_get tx self.old.rows) }
        ensures rows { (t : Tx) → tx_get t self.new.rows ≡ (if tx_same tx t then Some value else tx_get t self.old.rows) }
        ensures room { self.new.room ≡ self.old.room }
    {
        let Some(row) = self.rows.get_mut(&Key::new(tx)) else {
            unreachable!()
        };
        *row = value;
    }

    /// A transaction has no value any more. Takes no memory; there is no less room.
    pub fn remove(&mut self, tx: TxId)
        ensures rows { (t : Tx) → tx_get t self.new.rows ≡ (if tx_same tx t then None else tx_get t self.old.rows) }
        ensures room { self.old.room ≤ self.new.room }
    {
        self.rows.remove(&Key::new(tx));
    }
}
