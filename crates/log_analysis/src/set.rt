// Sets of transactions.

ghost use Rattle.std.specs.Prelude.{◌≡◌, [], length, true, false, IsTrue, IfOk, OnOk, OnErr, ◌↔◌, if◌then◌else◌};
ghost use Rattle.clv_base.specs.declared.names.TxId.{TxId as Tx};
ghost use Rattle.clv_base.specs.Orders.{tx_in, tx_same, tx_insert};
ghost use Rattle.std.specs.Set.{remove_key};

use clv_base::names::TxId;
use std::alloc::{AllocError, Global};
use std::collections::BTreeSet;
use std::marker::Model;

fn is_in(members: &BTreeSet<TxId>, tx: TxId) -> bool
    ensures { result ≡ tx_in tx members.now.keys }
{
    members.contains(&tx)
}

/// A set of transactions, seen as the list of its members, which rises.
#[derive(Drop)]
pub struct TxSet {
    pub(crate) members: BTreeSet<TxId>,
}

impl Model for TxSet {
    ghost use Rattle.std.specs.Prelude.{List};
    ghost use Rattle.clv_base.specs.declared.names.TxId.{TxId as Name};

    ghost Value = { List Name };

    ghost view = { λ s. s.members.keys };
}

impl TxSet {
    /// The empty set. Takes no memory.
    pub fn new(alloc: Global) -> Self
        ensures { result ≡ [] }
    {
        TxSet {
            members: BTreeSet::new(alloc),
        }
    }

    /// The set of these transactions.
    pub fn of(alloc: Global, txs: &[TxId]) -> Result<Self, AllocError>
        ensures { IfOk result (λ s. (t : Tx) → tx_in t s ≡ tx_in t txs.now) }
    {
        let mut set = Self::new(alloc);
        for tx in txs {
            set.insert(*tx)?;
        }
        Ok(set)
    }

    /// Whether a transaction is a member.
    pub fn contains(&self, tx: TxId) -> bool
        ensures { result ≡ tx_in tx self.now }
    {
        is_in(&self.members, tx)
    }

    /// Whether there is no member.
    pub fn is_empty(&self) -> bool
        ensures { IsTrue result ↔ (self.now ≡ []) }
    {
        self.members.is_empty()
    }

    /// Puts a transaction in. An `Err` changes nothing.
    pub fn insert(&mut self, tx: TxId) -> Result<(), AllocError>
        ensures added { OnOk result (self.new ≡ tx_insert tx self.old) }
        ensures members { OnOk result ((t : Tx) → tx_in t self.new ≡ (if tx_same tx t then true else tx_in t self.old)) }
        ensures err { OnErr result (self.new ≡ self.old) }
    {
        self.members.insert(tx)?;
        Ok(())
    }

    /// Takes a transaction out, where it is a member.
    pub fn remove(&mut self, tx: TxId)
        ensures removed { self.new ≡ remove_key (tx_same tx) self.old }
        ensures members { (t : Tx) → tx_in t self.new ≡ (if tx_same tx t then false else tx_in t self.old) }
    {
        self.members.remove(&tx);
    }
}
