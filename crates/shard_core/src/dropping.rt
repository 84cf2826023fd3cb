//! A part is dropped.
ghost use Rattle.std.specs.Prelude.{◌≡◌, ◌≤◌, ◌||◌, true, false, length, is_some, IsTrue};
ghost use Rattle.std.specs.List.Sorted.{IsStrictlySortedBy};
ghost use Rattle.clv_base.specs.declared.names.TxId.{TxId as Tx};
ghost use Rattle.clv_base.specs.Orders.{tx_cmp, tx_in};
ghost use Rattle.clv_base.specs.State.{with_local};
ghost use Rattle.clv_base.specs.Undo.{stage_of as stage_in, doomed_by};
ghost use Rattle.clv_base.specs.OneShard.{drop_part as dropped_from, purge};
ghost use Rattle.clv_base.specs.Events.{finish};
ghost use Rattle.tx_table.specs.Held.{HasRoomBy};
ghost use Rattle.due_step.specs.Ready.{IsReady};
ghost use Rattle.txn_core.specs.State.{IsSameBut};
ghost use Rattle.txn_core.specs.Sound.{IsSound, KeepsSpare};
ghost use Rattle.shard_core.specs.Whole.{IsAtRest};

use crate::shard::ShardCore;
use clv_base::names::TxId;
use due_step::settle_due;
use lock_table::Locks;
use ordered_store::Store;
use tx_table::Candidates;
use txn_core::ShardTx;

/// The part is dropped, and those that it takes away are candidates besides.
fn drop_noted<S: Store + Drop, L: Locks + Drop>(
    tx: TxId,
    transactions: &mut ShardTx<S, L>,
    candidates: &mut Candidates,
)
    requires known { is_some (stage_in transactions.old.local tx) ≡ true }
    requires room { HasRoomBy (λ t. tx_in t (doomed_by transactions.old.local tx)) candidates.old }
    ensures dropped { IsSameBut transactions.old (purge (dropped_from tx transactions.old.local)) transactions.new }
    ensures room { KeepsSpare transactions.old transactions.new }
    ensures pairs_room { transactions.old.pairs_room ≤ transactions.new.pairs_room }
    ensures sound { IsSound transactions.new.local transactions.new.room }
    ensures purged { purge transactions.new.local ≡ transactions.new.local }
    ensures txs { (x : Tx) → tx_in x candidates.new.txs ≡ (tx_in x (doomed_by transactions.old.local tx) || tx_in x candidates.old.txs) }
    ensures limit { candidates.new.limit ≡ candidates.old.limit }
    ensures rise { IsStrictlySortedBy tx_cmp candidates.new.txs }
    ensures few { length candidates.new.txs ≤ candidates.new.limit }
{
    transactions.note_doomed(tx, candidates);
    transactions.drop_part(tx);
    transactions.kept();
    let _least = candidates.first();
}

impl<S: Store + Drop, L: Locks + Drop> ShardCore<S, L> {
    /// The part is dropped, before what is due then is done. Takes no memory.
    fn drop_here(&mut self, tx: TxId)
        requires rest { IsAtRest self.old }
        requires known { is_some (stage_in (self.old.shard).local tx) ≡ true }
        ensures ready { IsReady self.new.shard self.new.candidates self.new.limit }
        ensures finished { finish self.new.shard ≡ finish (with_local (dropped_from tx) self.old.shard) }
    {
        drop_noted(tx, &mut self.transactions, &mut self.candidates);
    }

    /// The transaction's part is rolled back, where it is there, with all that depend on it, and marked as dropped; then all is done that is due.
    /// It is false exactly where no part of it is known, and then all is as before. Takes no memory.
    pub fn drop_part(&mut self, tx: TxId) -> bool
        requires { IsAtRest self.old }
        ensures known { result ≡ is_some (stage_in (self.old.shard).local tx) }
        ensures dropped { IsTrue result → (self.new.shard ≡ finish (with_local (dropped_from tx) self.old.shard)) }
        ensures absent { result ≡ false → self.new ≡ self.old }
        ensures rest { IsAtRest self.new }
    {
        if self.transactions.stage_of(tx).is_none() {
            return false;
        }
        self.drop_here(tx);
        settle_due(self);
        true
    }
}
