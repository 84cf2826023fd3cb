//! Decisions that come, and answers that go out at once.
ghost use Rattle.std.specs.Prelude.{◌≡◌, ◌≤◌, ◌++◌, ◌||◌, [], ◌∷◌, true, false, length, OnOk, OnErr};
ghost use Rattle.std.specs.List.Sorted.{IsStrictlySortedBy};
ghost use Rattle.clv_base.specs.declared.names.TxId.{TxId as Tx};
ghost use Rattle.clv_base.specs.declared.logs.LogRecord.TheVariants.{Commit};
ghost use Rattle.clv_base.specs.FileRules.{tx_has_spelling};
ghost use Rattle.clv_base.specs.Orders.{tx_cmp, tx_in, tx_same};
ghost use Rattle.clv_base.specs.Undo.{roll_back, doomed_by};
ghost use Rattle.clv_base.specs.OneShard.{purge};
ghost use Rattle.clv_base.specs.Due.{append_log, send};
ghost use Rattle.clv_base.specs.Events.{finish, decided};
ghost use Rattle.protocol_laws.specs.UndoLaws.{is_pair};
ghost use Rattle.tx_table.specs.Held.{HasRoomBy};
ghost use Rattle.due_step.specs.Ready.{IsReady};
ghost use Rattle.due_step.specs.Noting.{known_keys};
ghost use Rattle.txn_core.specs.State.{IsSameBut};
ghost use Rattle.txn_core.specs.Sound.{IsSound, KeepsSpare};
ghost use Rattle.shard_core.specs.Whole.{IsAtRest};

use crate::shard::ShardCore;
use clv_base::messages::Message;
use clv_base::names::TxId;
use clv_base::parts::ShardList;
use clv_base::state::Ruling;
use due_step::{Due, Outbox, note_touched, settle_due};
use lock_table::Locks;
use ordered_store::Store;
use tx_table::Candidates;
use txn_core::{Memory, ShardTx};

/// A COMMIT is written, and the transaction with its successors are candidates besides.
fn commit_noted<S: Store + Drop, L: Locks + Drop>(
    tx: TxId,
    transactions: &mut ShardTx<S, L>,
    candidates: &mut Candidates,
) -> Result<(), Memory>
    requires room { HasRoomBy (λ t. tx_in t (doomed_by transactions.old.local tx)) candidates.old }
    requires name { tx_has_spelling tx ≡ true }
    ensures ok { OnOk result (IsSameBut transactions.old (append_log (Commit tx [] ∷ []) transactions.old.local) transactions.new) }
    ensures txs { OnOk result ((x : Tx) → tx_in x candidates.new.txs ≡ (is_pair (transactions.old.local).pairs x tx || tx_same tx x || tx_in x candidates.old.txs)) }
    ensures err { OnErr result (IsSameBut transactions.old transactions.old.local transactions.new) }
    ensures stay { OnErr result (candidates.new ≡ candidates.old) }
    ensures limit { candidates.new.limit ≡ candidates.old.limit }
    ensures room { KeepsSpare transactions.old transactions.new }
    ensures pairs_room { transactions.old.pairs_room ≤ transactions.new.pairs_room }
    ensures sound { IsSound transactions.new.local transactions.new.room }
    ensures purged { purge transactions.new.local ≡ transactions.new.local }
    ensures rise { IsStrictlySortedBy tx_cmp candidates.new.txs }
    ensures few { length candidates.new.txs ≤ candidates.new.limit }
{
    let _least = candidates.first();
    transactions.kept();
    match transactions.reserve(1) {
        Ok(()) => {}
        Err(memory) => {
            transactions.kept();
            return Err(memory);
        }
    }
    let due = Due::Ruling(Ruling::Commit {
        parts: ShardList::new(),
    });
    note_touched(tx, &due, transactions, candidates);
    transactions.commit_part(tx, ShardList::new());
    transactions.kept();
    let _least = candidates.first();
    Ok(())
}

/// The transaction is aborted, and those that it takes away are candidates besides.
fn abort_noted<S: Store + Drop, L: Locks + Drop>(
    tx: TxId,
    transactions: &mut ShardTx<S, L>,
    candidates: &mut Candidates,
)
    requires { HasRoomBy (λ t. tx_in t (doomed_by transactions.old.local tx)) candidates.old }
    ensures aborted { IsSameBut transactions.old (purge (roll_back tx transactions.old.local)) transactions.new }
    ensures room { KeepsSpare transactions.old transactions.new }
    ensures pairs_room { transactions.old.pairs_room ≤ transactions.new.pairs_room }
    ensures sound { IsSound transactions.new.local transactions.new.room }
    ensures purged { purge transactions.new.local ≡ transactions.new.local }
    ensures txs { (x : Tx) → tx_in x candidates.new.txs ≡ (tx_in x (doomed_by transactions.old.local tx) || tx_in x candidates.old.txs) }
    ensures limit { candidates.new.limit ≡ candidates.old.limit }
    ensures rise { IsStrictlySortedBy tx_cmp candidates.new.txs }
    ensures few { length candidates.new.txs ≤ candidates.new.limit }
{
    transactions.note_doomed(tx, candidates);
    transactions.abort(tx);
    transactions.kept();
    let _least = candidates.first();
}

/// A message goes behind the others.
fn tell_one(outbox: &mut Outbox, message: Message) -> Result<(), Memory>
    ensures ok { OnOk result (outbox.new.messages ≡ outbox.old.messages ++ message ∷ []) }
    ensures err { OnErr result (outbox.new ≡ outbox.old) }
    ensures room { outbox.old.room ≤ outbox.new.room }
{
    match outbox.reserve(1) {
        Ok(()) => {
            outbox.push(message);
            Ok(())
        }
        Err(_) => Err(Memory),
    }
}

impl<S: Store + Drop, L: Locks + Drop> ShardCore<S, L> {
    /// The abort of a transaction that is known is carried out, before what is due then is done. Takes no memory.
    fn abort_here(&mut self, tx: TxId)
        requires rest { IsAtRest self.old }
        requires known { tx_in tx (known_keys self.old.shard) ≡ true }
        ensures ready { IsReady self.new.shard self.new.candidates self.new.limit }
        ensures finished { finish self.new.shard ≡ finish (decided self.old.shard tx false) }
    {
        abort_noted(tx, &mut self.transactions, &mut self.candidates);
    }

    /// An abort that its home has decided is carried out, and all is done that is due then. Takes no memory.
    pub fn take_abort(&mut self, tx: TxId)
        requires rest { IsAtRest self.old }
        requires known { tx_in tx (known_keys self.old.shard) ≡ true }
        ensures taken { self.new.shard ≡ finish (decided self.old.shard tx false) }
        ensures rest { IsAtRest self.new }
    {
        self.abort_here(tx);
        settle_due(self);
    }

    /// The commit of a transaction that is known is carried out, before what is due then is done. Where there is no memory all stays.
    fn commit_here(&mut self, tx: TxId) -> Result<(), Memory>
        requires rest { IsAtRest self.old }
        requires known { tx_in tx (known_keys self.old.shard) ≡ true }
        requires name { tx_has_spelling tx ≡ true }
        ensures ready { OnOk result (IsReady self.new.shard self.new.candidates self.new.limit) }
        ensures finished { OnOk result (finish self.new.shard ≡ finish (decided self.old.shard tx true)) }
        ensures err { OnErr result (self.new ≡ self.old) }
    {
        match commit_noted(tx, &mut self.transactions, &mut self.candidates) {
            Ok(()) => {}
            Err(memory) => return Err(memory),
        }
        Ok(())
    }

    /// A commit that its home has decided is written, and all is done that is due then. Where there is no memory all stays.
    pub fn take_commit(&mut self, tx: TxId) -> Result<(), Memory>
        requires rest { IsAtRest self.old }
        requires known { tx_in tx (known_keys self.old.shard) ≡ true }
        requires name { tx_has_spelling tx ≡ true }
        ensures taken { OnOk result (self.new.shard ≡ finish (decided self.old.shard tx true)) }
        ensures err { OnErr result (self.new ≡ self.old) }
        ensures rest { IsAtRest self.new }
    {
        match self.commit_here(tx) {
            Ok(()) => {}
            Err(memory) => return Err(memory),
        }
        settle_due(self);
        Ok(())
    }

    /// A message waits besides, before what is due then is done. Where there is no memory all stays.
    fn tell_here(&mut self, message: Message) -> Result<(), Memory>
        requires { IsAtRest self.old }
        ensures ready { OnOk result (IsReady self.new.shard self.new.candidates self.new.limit) }
        ensures finished { OnOk result (finish self.new.shard ≡ finish (send (message ∷ []) self.old.shard)) }
        ensures err { OnErr result (self.new ≡ self.old) }
    {
        self.transactions.kept();
        match tell_one(&mut self.outbox, message) {
            Ok(()) => {}
            Err(memory) => return Err(memory),
        }
        Ok(())
    }

    /// A message waits besides, and all is done that is due then. Where there is no memory all stays.
    pub fn tell(&mut self, message: Message) -> Result<(), Memory>
        requires { IsAtRest self.old }
        ensures told { OnOk result (self.new.shard ≡ finish (send (message ∷ []) self.old.shard)) }
        ensures err { OnErr result (self.new ≡ self.old) }
        ensures rest { IsAtRest self.new }
    {
        match self.tell_here(message) {
            Ok(()) => {}
            Err(memory) => return Err(memory),
        }
        settle_due(self);
        Ok(())
    }

    /// All stays where nothing is due, and nothing is. Takes no memory.
    pub fn settle(&mut self)
        requires { IsAtRest self.old }
        ensures same { self.new.shard ≡ finish self.old.shard }
        ensures rest { IsAtRest self.new }
    {
        settle_due(self);
    }
}
