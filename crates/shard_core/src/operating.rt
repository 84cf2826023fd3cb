//! Operations.
ghost use Rattle.std.specs.Prelude.{◌≡◌, ◌≤◌, ◌+◌, ◌&&◌, [], true, false, cond, length, is_none, is_some, IfOk, OnOk, OnErr};
ghost use Rattle.std.specs.List.Sorted.{IsStrictlySortedBy};
ghost use Rattle.clv_base.specs.declared.names.TxId.{TxId as Tx};
ghost use Rattle.clv_base.specs.FileRules.{tx_has_spelling};
ghost use Rattle.clv_base.specs.Orders.{tx_cmp, tx_get, tx_in};
ghost use Rattle.clv_base.specs.Undo.{stage_of as stage_in, doomed_by};
ghost use Rattle.clv_base.specs.OneShard.{op_reply, purge};
ghost use Rattle.two_phase_commit.specs.Coordinated.{state_by};
ghost use Rattle.tx_table.specs.Held.{Candidates as Held, HasRoomBy};
ghost use Rattle.due_step.specs.Ready.{IsReady};
ghost use Rattle.txn_core.specs.State.{IsSameBut};
ghost use Rattle.txn_core.specs.Replies.{Replies};
ghost use Rattle.txn_core.specs.Sound.{IsSound, KeepsSpare};
ghost use Rattle.shard_core.specs.Operating.{StayBy, Comes, Ends};
ghost use Rattle.shard_core.specs.Whole.{IsAtRest};

use crate::shard::ShardCore;
use clv_base::names::{Birth, TxId};
use clv_base::ops::Op;
use clv_base::state::Stage;
use due_step::settle_due;
use lock_table::Locks;
use ordered_store::Store;
use std::alloc::Global;
use tx_table::Candidates;
use txn_core::{Memory, Reply, ShardTx};

/// Those whom the death of the transaction takes away are candidates, where its part is known; else there is room for one more that is known.
/// `stage` is how far the part is.
fn note_dying<S: Store + Drop, L: Locks + Drop>(
    stage: Option<Stage>,
    tx: TxId,
    transactions: &mut ShardTx<S, L>,
    candidates: &mut Candidates,
) -> Result<(), Memory>
    requires stage { stage ≡ stage_in transactions.old.local tx }
    requires none { candidates.old.txs ≡ [] }
    requires room { is_some (stage_in transactions.old.local tx) ≡ true → HasRoomBy (λ t. tx_in t (doomed_by transactions.old.local tx)) candidates.old }
    ensures same { transactions.new ≡ transactions.old }
    ensures txs { OnOk result ((x : Tx) → tx_in x candidates.new.txs ≡ cond (is_some (stage_in transactions.old.local tx)) (tx_in x (doomed_by transactions.old.local tx)) false) }
    ensures limit { OnOk result (candidates.new.limit ≡ candidates.old.limit + cond (is_some (stage_in transactions.old.local tx)) 0 1) }
    ensures err { OnErr result (candidates.new ≡ candidates.old) }
{
    if stage.is_some() {
        transactions.note_doomed(tx, candidates);
        return Ok(());
    }
    match candidates.reserve_more(1) {
        Ok(()) => Ok(()),
        Err(_) => Err(Memory),
    }
}

/// After the answer who may have something due stays a candidate. What is granted makes nothing due: its part is active.
fn keep_noted(reply: &Reply, candidates: &mut Candidates)
    ensures stay { StayBy reply.now candidates.old.txs candidates.new.txs }
    ensures limit { candidates.new.limit ≡ candidates.old.limit }
{
    match reply {
        Reply::Dead(_) => {}
        Reply::Answered { .. } | Reply::Wait { .. } | Reply::Crowded { .. } => candidates.clear(),
    }
}

/// The operation, with those noted for whom something may be due then; `stage` is how far the part is.
fn op_noted<S: Store + Drop, L: Locks + Drop>(
    alloc: Global,
    stage: Option<Stage>,
    tx: TxId,
    birth: Birth,
    seen: Option<u64>,
    op: &Op,
    transactions: &mut ShardTx<S, L>,
    candidates: &mut Candidates,
) -> Result<Reply, Memory>
    requires stage { stage ≡ stage_in transactions.old.local tx }
    requires none { candidates.old.txs ≡ [] }
    requires room { is_some (stage_in transactions.old.local tx) ≡ true → HasRoomBy (λ t. tx_in t (doomed_by transactions.old.local tx)) candidates.old }
    requires name { tx_has_spelling tx ≡ true }
    ensures ok { IfOk result (λ r. Replies (op_reply transactions.old.shard transactions.old.local tx birth seen op.now) transactions.old r transactions.new) }
    ensures stay { IfOk result (λ r. (noted : Held) × ((x : Tx) → tx_in x noted.txs ≡ cond (is_some (stage_in transactions.old.local tx)) (tx_in x (doomed_by transactions.old.local tx)) false) × StayBy r noted.txs candidates.new.txs) }
    ensures limit { OnOk result (candidates.new.limit ≡ candidates.old.limit + cond (is_some (stage_in transactions.old.local tx)) 0 1) }
    ensures err { OnErr result (IsSameBut transactions.old transactions.old.local transactions.new) }
    ensures clear { OnErr result (candidates.new.txs ≡ []) }
    ensures places { candidates.old.limit ≤ candidates.new.limit }
    ensures room { KeepsSpare transactions.old transactions.new }
    ensures pairs_room { transactions.old.pairs_room ≤ transactions.new.pairs_room }
    ensures sound { IsSound transactions.new.local transactions.new.room }
    ensures purged { purge transactions.new.local ≡ transactions.new.local }
    ensures rise { IsStrictlySortedBy tx_cmp candidates.new.txs }
    ensures few { length candidates.new.txs ≤ candidates.new.limit }
{
    transactions.kept();
    let _least = candidates.first();
    match note_dying(stage, tx, transactions, candidates) {
        Ok(()) => {}
        Err(memory) => return Err(memory),
    }
    let reply = match transactions.op_of(alloc, stage, tx, birth, seen, op) {
        Ok(reply) => reply,
        Err(memory) => {
            candidates.clear();
            transactions.kept();
            let _least = candidates.first();
            return Err(memory);
        }
    };
    keep_noted(&reply, candidates);
    transactions.kept();
    let _least = candidates.first();
    Ok(reply)
}

impl<S: Store + Drop, L: Locks + Drop> ShardCore<S, L> {
    /// Whether a request of the transaction stands and no part of it is known here; `stage` is how far that is. For a part that begins after its
    /// request there is no room.
    fn is_late(&self, stage: Option<Stage>, tx: TxId) -> bool
        requires { stage ≡ stage_in (self.now.shard).local tx }
        ensures { result ≡ (is_none (stage_in (self.now.shard).local tx) && is_some (state_by (tx_get tx (self.now.shard).requests))) }
    {
        stage.is_none() && self.coordinator.state_of(tx).is_some()
    }

    /// An operation, before what is due then is done. A quiet answer leaves the shard as it was, and so does want of memory.
    fn op_here(
        &mut self,
        alloc: Global,
        tx: TxId,
        birth: Birth,
        seen: Option<u64>,
        op: &Op,
    ) -> Result<Reply, Memory>
        requires rest { IsAtRest self.old }
        requires name { tx_has_spelling tx ≡ true }
        ensures ready { IsReady self.new.shard self.new.candidates self.new.limit }
        ensures ok { IfOk result (λ r. Comes (op_reply (self.old.shard).shard (self.old.shard).local tx birth seen op.now) self.old.shard r self.new.shard) }
        ensures err { OnErr result (self.new.shard ≡ self.old.shard) }
    {
        let stage = self.stage_of(tx);
        if self.is_late(stage, tx) {
            return Err(Memory);
        }
        let reply = match op_noted(
            alloc,
            stage,
            tx,
            birth,
            seen,
            op,
            &mut self.transactions,
            &mut self.candidates,
        ) {
            Ok(reply) => reply,
            Err(memory) => return Err(memory),
        };
        Ok(reply)
    }

    /// An operation of a transaction with this birth, and then all that is due. A quiet answer leaves the shard as it was, and so does want of memory.
    /// `Memory` is also answered to a transaction that has no part here and yet a request, as none has whose session asks only once it is done.
    pub fn operate(
        &mut self,
        alloc: Global,
        tx: TxId,
        birth: Birth,
        seen: Option<u64>,
        op: &Op,
    ) -> Result<Reply, Memory>
        requires rest { IsAtRest self.old }
        requires name { tx_has_spelling tx ≡ true }
        ensures ok { IfOk result (λ r. Ends (op_reply (self.old.shard).shard (self.old.shard).local tx birth seen op.now) self.old.shard r self.new.shard) }
        ensures err { OnErr result (self.new.shard ≡ self.old.shard) }
        ensures rest { IsAtRest self.new }
    {
        let reply = match self.op_here(alloc, tx, birth, seen, op) {
            Ok(reply) => reply,
            Err(memory) => {
                settle_due(self);
                return Err(memory);
            }
        };
        settle_due(self);
        Ok(reply)
    }
}
