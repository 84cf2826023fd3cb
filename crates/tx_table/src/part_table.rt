//! The table.
ghost use Rattle.std.specs.Prelude.{◌≡◌, [], IfOk, OnOk, OnErr};
ghost use Rattle.std.specs.List.Sorted.{IsStrictlySortedBy};
ghost use Rattle.std.specs.Map.{keys_of};
ghost use Rattle.clv_base.specs.Orders.{tx_cmp, tx_get, tx_put};
ghost use Rattle.tx_table.specs.Parts.{IsNoReturn, is_here as here_by, parts_here};

use crate::{TxIndex, TxTable};
use clv_base::names::TxId;
use clv_base::state::{Held, Stage};
use std::alloc::{AllocError, Global};
use std::collections::BTreeMap;
use std::collections::btree_map::Iter;
use std::marker::Model;

/// The parts of one shard's transactions, in one epoch.
#[derive(Drop)]
pub struct PartTable {
    parts: BTreeMap<TxId, Held>,
    /// The same parts, to be looked up: a look into a hash map is faster than one down the tree.
    found: TxTable<Held>,
    /// Those that are active or closed.
    here: TxIndex,
}

impl Model for PartTable {
    ghost use Rattle.tx_table.specs.Parts.{PartRows, AreAlike, is_here};
    ghost use Rattle.tx_table.specs.Index.{IsIndex};

    ghost Value = { PartRows };

    ghost view = { λ p. record { entries = p.parts.entries } };

    ghost invariant = { λ p. IsIndex is_here p.parts.entries p.here × AreAlike p.found.rows p.parts.entries };
}

/// Whether a part is active or closed.
fn is_here(part: Held) -> bool
    ensures { result ≡ here_by part }
{
    match part.stage {
        Stage::Active | Stage::Closed => true,
        Stage::Gone { .. } => false,
    }
}

impl PartTable {
    /// The table without a part. Takes no memory.
    pub fn new(alloc: Global) -> Self
        ensures { result.entries ≡ [] }
    {
        PartTable {
            parts: BTreeMap::new(alloc),
            found: TxTable::new(alloc),
            here: TxIndex::new(alloc),
        }
    }

    /// The transaction's part.
    pub fn get(&self, tx: TxId) -> Option<Held>
        ensures { result ≡ tx_get tx self.now.entries }
    {
        self.found.get(tx)
    }

    /// The parts, by rising transactions.
    pub fn iter(&self) -> Iter<'_, TxId, Held>
        ensures rows { result ≡ self.now.entries }
    {
        self.parts.iter()
    }

    /// A law: the transactions rise.
    pub fn rising(&self)
        ensures { IsStrictlySortedBy tx_cmp (keys_of self.now.entries) }
    {
        let _count = self.parts.len();
    }

    /// The transaction has this part from now on. An `Err` changes nothing.
    pub fn enter(&mut self, tx: TxId, part: Held) -> Result<(), AllocError>
        ensures ok { OnOk result (self.new.entries ≡ tx_put tx part self.old.entries) }
        ensures err { OnErr result (self.new.entries ≡ self.old.entries) }
    {
        let is_here = is_here(part);
        self.found.reserve(1)?;
        self.here.insert_if(tx, is_here)?;
        match self.parts.insert(tx, part) {
            Ok(_) => {
                self.found.set(tx, part);
                self.here.keep_if(tx, is_here);
                Ok(())
            }
            Err(_) => {
                self.here.keep_if(tx, false);
                Err(AllocError)
            }
        }
    }

    /// The part that the transaction has becomes this one; a part that is gone doesn't come back. Takes no memory.
    pub fn change(&mut self, tx: TxId, part: Held)
        requires { IsNoReturn (tx_get tx self.old.entries) part }
        ensures entries { self.new.entries ≡ tx_put tx part self.old.entries }
        ensures rising { IsStrictlySortedBy tx_cmp (keys_of self.old.entries) }
    {
        let Ok(_) = self.parts.insert(tx, part) else {
            unreachable!()
        };
        self.found.replace(tx, part);
        self.here.keep_if(tx, is_here(part));
    }

    /// The transactions whose parts are active or closed, which rise.
    pub fn here(&self, alloc: Global) -> Result<Vec<TxId>, AllocError>
        ensures txs { IfOk result (λ txs. txs.items ≡ parts_here self.now.entries) }
        ensures rising { IsStrictlySortedBy tx_cmp (parts_here self.now.entries) }
    {
        self.rising();
        let txs = self.here.to_vec(alloc)?;
        Ok(txs)
    }
}
