// A set of transactions.

ghost use Rattle.std.specs.Prelude.{◌≡◌, true, false, IfOk, OnOk, if◌then◌else◌};
ghost use Rattle.clv_base.specs.declared.names.TxId.{TxId as Tx};
ghost use Rattle.clv_base.specs.Orders.{tx_same, tx_in};
ghost use Rattle.history_replay.specs.Transactions.{has_member};

use crate::Memory;
use clv_base::names::TxId;
use std::alloc::Global;
use std::collections::BTreeSet;

/// Transactions, found in time logarithmic in their number.
#[derive(Drop)]
pub struct TxSet {
    members: BTreeSet<TxId>,
}

impl TxSet {
    /// The empty set. Takes no memory.
    pub fn new(alloc: Global) -> Self
        ensures { (t : Tx) → has_member result t ≡ false }
    {
        TxSet {
            members: BTreeSet::new(alloc),
        }
    }

    /// The set of these transactions.
    pub fn of(alloc: Global, txs: &[TxId]) -> Result<Self, Memory>
        ensures { IfOk result (λ set. (t : Tx) → has_member set t ≡ tx_in t txs.now) }
    {
        let mut set = Self::new(alloc);
        for tx in txs {
            set.insert(*tx)?;
        }
        Ok(set)
    }

    /// Whether a transaction is a member.
    pub fn contains(&self, tx: TxId) -> bool
        ensures { result ≡ has_member self.now tx }
    {
        self.members.contains(&tx)
    }

    /// Puts a transaction in.
    pub fn insert(&mut self, tx: TxId) -> Result<(), Memory>
        ensures { OnOk result ((t : Tx) → has_member self.new t ≡ (if tx_same tx t then true else has_member self.old t)) }
    {
        self.members.insert(tx)?;
        Ok(())
    }
}
