//! The candidates.
ghost use Rattle.std.specs.Prelude.{◌≡◌, ◌≤◌, ◌+◌, ◌||◌, [], ◌∷◌, length, max, is_ok, OnOk, OnErr, IfErr};
ghost use Rattle.std.specs.List.{insert as with_inserted};
ghost use Rattle.std.specs.List.Sorted.{IsStrictlySortedBy};
ghost use Rattle.clv_base.specs.Orders.{tx_cmp, tx_in, tx_insert};
ghost use Rattle.clv_base.specs.declared.names.TxId.{TxId as Tx};
ghost use Rattle.tx_table.specs.Held.{HasRoomFor, least, but_least};

use clv_base::names::TxId;
use std::alloc::{AllocError, Global};
use std::collections::VecDeque;
use std::marker::Model;

/// Transactions, rising.
#[derive(Drop)]
pub struct Candidates {
    txs: VecDeque<TxId>,
    limit: usize,
}

impl Model for Candidates {
    ghost use Rattle.std.specs.Prelude.{◌≤◌};
    ghost use Rattle.std.specs.VecDeque.{deque_len, deque_capacity};
    ghost use Rattle.std.specs.List.Sorted.{IsStrictlySortedBy};
    ghost use Rattle.clv_base.specs.Orders.{tx_cmp};
    ghost use Rattle.tx_table.specs.Held.{Candidates};

    ghost Value = { Candidates };

    ghost view = { λ c. record { txs = c.txs.items; limit = c.limit } };

    ghost invariant = { λ c. IsStrictlySortedBy tx_cmp c.txs.items × (deque_len c.txs ≤ c.limit) × (c.limit ≤ deque_capacity c.txs) };
}

impl Candidates {
    /// No candidate, and no room. Takes no memory.
    pub fn new(alloc: Global) -> Self
        ensures { (result.txs ≡ []) × (result.limit ≡ 0) }
    {
        Candidates {
            txs: VecDeque::new(alloc),
            limit: 0,
        }
    }

    /// Makes room for so many candidates in all. Where there is no memory all stays.
    pub fn reserve(&mut self, limit: usize) -> Result<(), AllocError>
        ensures ok { OnOk result (self.new ≡ record self.old { limit = max self.old.limit limit }) }
        ensures err { OnErr result (self.new ≡ self.old) }
    {
        if limit <= self.limit {
            return Ok(());
        }
        let more = limit - self.txs.len();
        self.txs.reserve(more)?;
        self.limit = limit;
        Ok(())
    }

    /// Makes room for so many candidates more. Where there is no memory all stays.
    pub fn reserve_more(&mut self, count: usize) -> Result<(), AllocError>
        ensures ok { OnOk result (self.new ≡ record self.old { limit = self.old.limit + count }) }
        ensures err { OnErr result (self.new ≡ self.old) }
    {
        let Some(limit) = self.limit.checked_add(count) else {
            return Err(AllocError);
        };
        let more = limit - self.txs.len();
        self.txs.reserve(more)?;
        self.limit = limit;
        Ok(())
    }

    /// The least candidate.
    pub fn first(&self) -> Option<TxId>
        ensures first { result ≡ least self.now.txs }
        ensures rise { IsStrictlySortedBy tx_cmp self.now.txs }
        ensures few { length self.now.txs ≤ self.now.limit }
    {
        self.txs.front().copied()
    }

    /// The least candidate goes. Takes no memory.
    pub fn leave_first(&mut self)
        ensures { self.new ≡ record self.old { txs = but_least self.old.txs } }
    {
        self.txs.pop_front();
    }

    /// Nobody is a candidate any more. Takes no memory.
    pub fn clear(&mut self)
        ensures { self.new ≡ record self.old { txs = [] } }
    {
        self.txs.clear();
    }

    /// Where the transaction stands, else where it would be put.
    fn find(&self, tx: TxId) -> Result<usize, usize>
        ensures there { is_ok result ≡ tx_in tx self.now.txs }
        ensures ok { OnOk result (tx_insert tx self.now.txs ≡ self.now.txs) }
        ensures err { IfErr result (λ i. (i ≤ length self.now.txs) × (with_inserted self.now.txs i tx ≡ tx_insert tx self.now.txs)) }
    {
        if let Some(last) = self.txs.back() {
            if last.cmp(&tx).is_lt() {
                return Err(self.txs.len());
            }
        }
        self.txs.binary_search(&tx)
    }

    /// Whether the transaction is a candidate.
    pub fn contains(&self, tx: TxId) -> bool
        ensures { result ≡ tx_in tx self.now.txs }
    {
        self.find(tx).is_ok()
    }

    /// The transaction is a candidate besides. Takes no memory.
    pub fn insert(&mut self, tx: TxId)
        requires { HasRoomFor (tx ∷ []) self.old }
        ensures { self.new ≡ record self.old { txs = tx_insert tx self.old.txs } }
    {
        if let Err(at) = self.find(tx) {
            let Ok(()) = self.txs.insert(at, tx) else {
                unreachable!()
            };
        }
    }

    /// The transactions are candidates besides. Takes no memory.
    pub fn insert_all(&mut self, txs: &[TxId])
        requires { HasRoomFor txs.now self.old }
        ensures txs { (x : Tx) → tx_in x self.new.txs ≡ (tx_in x txs.now || tx_in x self.old.txs) }
        ensures limit { self.new.limit ≡ self.old.limit }
    {
        for tx in txs {
            self.insert(*tx);
        }
    }
}
