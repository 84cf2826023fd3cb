//! Votes and acknowledgements that come.
ghost use Rattle.std.specs.Prelude.{◌≡◌, ◌≤◌, [], ◌∷◌, true, length};
ghost use Rattle.std.specs.List.Sorted.{IsStrictlySortedBy};
ghost use Rattle.clv_base.specs.Orders.{tx_cmp, tx_get, tx_insert};
ghost use Rattle.clv_base.specs.OneShard.{purge};
ghost use Rattle.clv_base.specs.Events.{finish};
ghost use Rattle.two_phase_commit.specs.Coordinated.{counts_by, done_by, requests_with, requests_done};
ghost use Rattle.tx_table.specs.Held.{HasRoomFor};
ghost use Rattle.due_step.specs.Ready.{IsReady};
ghost use Rattle.txn_core.specs.Sound.{IsSound};
ghost use Rattle.shard_core.specs.Replying.{vote_taken, done_taken};
ghost use Rattle.shard_core.specs.Whole.{IsAtRest};

use crate::shard::ShardCore;
use clv_base::causes::Vote;
use clv_base::names::TxId;
use due_step::settle_due;
use lock_table::Locks;
use ordered_store::Store;
use tx_table::Candidates;
use txn_core::ShardTx;

/// One more is a candidate.
pub(crate) fn note<S: Store + Drop, L: Locks + Drop>(
    tx: TxId,
    transactions: &ShardTx<S, L>,
    candidates: &mut Candidates,
)
    requires { HasRoomFor (tx ∷ []) candidates.old }
    ensures sound { IsSound transactions.now.local transactions.now.room }
    ensures purged { purge transactions.now.local ≡ transactions.now.local }
    ensures candidates { candidates.new ≡ record candidates.old { txs = tx_insert tx candidates.old.txs } }
    ensures rise { IsStrictlySortedBy tx_cmp candidates.new.txs }
    ensures few { length candidates.new.txs ≤ candidates.new.limit }
{
    transactions.kept();
    candidates.insert(tx);
    let _least = candidates.first();
}

impl<S: Store + Drop, L: Locks + Drop> ShardCore<S, L> {
    /// Whether a vote that comes would count.
    pub fn awaits_vote(&self, tx: TxId, from: u32) -> bool
        ensures { result ≡ counts_by (self.now.shard).shard from (tx_get tx (self.now.shard).requests) }
    {
        self.coordinator.awaits_vote(tx, from)
    }

    /// Whether an acknowledgement that comes would count.
    pub fn awaits_done(&self, tx: TxId, from: u32) -> bool
        ensures { result ≡ done_by from (tx_get tx (self.now.shard).requests) }
    {
        self.coordinator.awaits_done(tx, from)
    }

    /// A vote is taken, before what is due then is done. Takes no memory.
    fn vote_here(&mut self, tx: TxId, from: u32, vote: Vote)
        requires rest { IsAtRest self.old }
        requires counts { counts_by (self.old.shard).shard from (tx_get tx (self.old.shard).requests) ≡ true }
        ensures ready { IsReady self.new.shard self.new.candidates self.new.limit }
        ensures finished { finish self.new.shard ≡ finish (vote_taken tx from vote (tx_get tx (self.old.shard).requests) self.old.shard) }
    {
        self.coordinator.on_vote(tx, from, vote);
        note(tx, &self.transactions, &mut self.candidates);
    }

    /// An acknowledgement is taken, before what is due then is done. Takes no memory.
    fn done_here(&mut self, tx: TxId, from: u32)
        requires rest { IsAtRest self.old }
        requires counts { done_by from (tx_get tx (self.old.shard).requests) ≡ true }
        ensures ready { IsReady self.new.shard self.new.candidates self.new.limit }
        ensures finished { finish self.new.shard ≡ finish (done_taken tx from (tx_get tx (self.old.shard).requests) self.old.shard) }
    {
        self.coordinator.on_done(tx, from);
        note(tx, &self.transactions, &mut self.candidates);
    }

    /// A vote that counts is taken, and all is done that is due then. Takes no memory.
    pub fn take_vote(&mut self, tx: TxId, from: u32, vote: Vote)
        requires rest { IsAtRest self.old }
        requires counts { counts_by (self.old.shard).shard from (tx_get tx (self.old.shard).requests) ≡ true }
        ensures taken { self.new.shard ≡ finish (vote_taken tx from vote (tx_get tx (self.old.shard).requests) self.old.shard) }
        ensures rest { IsAtRest self.new }
    {
        self.vote_here(tx, from, vote);
        settle_due(self);
    }

    /// An acknowledgement that counts is taken, and all is done that is due then. Takes no memory.
    pub fn take_done(&mut self, tx: TxId, from: u32)
        requires rest { IsAtRest self.old }
        requires counts { done_by from (tx_get tx (self.old.shard).requests) ≡ true }
        ensures taken { self.new.shard ≡ finish (done_taken tx from (tx_get tx (self.old.shard).requests) self.old.shard) }
        ensures rest { IsAtRest self.new }
    {
        self.done_here(tx, from);
        settle_due(self);
    }
}
