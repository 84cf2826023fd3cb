//! The index.

use clv_base::names::TxId;
use std::alloc::{AllocError, Global};
use std::collections::BTreeSet;
use std::marker::Model;

/// Transactions, each once, in their order.
#[derive(Drop)]
pub struct TxIndex {
    txs: BTreeSet<TxId>,
}

impl Model for TxIndex {
    ghost use Rattle.std.specs.Prelude.{List};
    ghost use Rattle.clv_base.specs.declared.names.TxId.{TxId as Name};

    ghost Value = { List Name };

    ghost view = { λ s. s.txs.keys };
}

impl TxIndex {
    ghost use Rattle.std.specs.Prelude.{◌≡◌, ◌&&◌, ◌||◌, [], IfOk, OnOk, OnErr, if◌then◌else◌};
    ghost use Rattle.std.specs.List.Sorted.{IsStrictlySortedBy};
    ghost use Rattle.clv_base.specs.declared.names.TxId.{TxId as Tx};
    ghost use Rattle.clv_base.specs.Orders.{tx_cmp, tx_in, tx_same};

    /// The index with no transaction. Takes no memory.
    pub fn new(alloc: Global) -> Self
        ensures { result ≡ [] }
    {
        TxIndex {
            txs: BTreeSet::new(alloc),
        }
    }

    /// Puts a transaction in if it passes. An `Err` changes nothing.
    pub fn insert_if(&mut self, tx: TxId, passes: bool) -> Result<(), AllocError>
        ensures members { OnOk result ((t : Tx) → tx_in t self.new ≡ (if tx_same tx t then passes || tx_in t self.old else tx_in t self.old)) }
        ensures err { OnErr result (self.new ≡ self.old) }
    {
        if passes {
            self.txs.insert(tx)?;
        }
        Ok(())
    }

    /// Takes a transaction out unless it stays. Takes no memory.
    pub fn keep_if(&mut self, tx: TxId, stays: bool)
        ensures members { (t : Tx) → tx_in t self.new ≡ (if tx_same tx t then stays && tx_in t self.old else tx_in t self.old) }
    {
        if !stays {
            self.txs.remove(&tx);
        }
    }

    /// The transactions, which rise.
    pub fn to_vec(&self, alloc: Global) -> Result<Vec<TxId>, AllocError>
        ensures txs { IfOk result (λ txs. txs.items ≡ self.now) }
        ensures rising { IsStrictlySortedBy tx_cmp self.now }
    {
        self.txs.iter().copied().collect(alloc)
    }
}
