//! Whom a change here may concern.
ghost use Rattle.std.specs.Prelude.{◌≡◌, ◌≤◌, ◌||◌, length, slice_range};
ghost use Rattle.clv_base.specs.declared.names.TxId.{TxId as Tx};
ghost use Rattle.clv_base.specs.Orders.{tx_in};
ghost use Rattle.clv_base.specs.Undo.{doomed_by};
ghost use Rattle.protocol_laws.specs.UndoLaws.{is_pair};
ghost use Rattle.tx_table.specs.Held.{HasRoomBy};
ghost use Rattle.txn_core.specs.Landed.{concern, concerns};

use crate::shard::ShardTx;
use cascade_undo::Deps;
use clv_base::logs::LogRecord;
use clv_base::names::TxId;
use lock_table::Locks;
use ordered_store::Store;
use tx_table::Candidates;

impl<S: Store + Drop, L: Locks + Drop> ShardTx<S, L> {
    /// Those that depend on the transaction here are candidates besides. Takes no memory.
    pub fn note_successors(&self, tx: TxId, candidates: &mut Candidates)
        requires { HasRoomBy (λ t. is_pair (self.now.local).pairs t tx) candidates.old }
        ensures txs { (t : Tx) → tx_in t candidates.new.txs ≡ (is_pair (self.now.local).pairs t tx || tx_in t candidates.old.txs) }
        ensures limit { candidates.new.limit ≡ candidates.old.limit }
    {
        candidates.insert_all(self.deps.successors(tx));
    }

    /// The transaction and all that depend on it here, through any number, are candidates besides. Takes no memory.
    pub fn note_doomed(&mut self, tx: TxId, candidates: &mut Candidates)
        requires { HasRoomBy (λ t. tx_in t (doomed_by self.old.local tx)) candidates.old }
        ensures same { self.new ≡ self.old }
        ensures txs { (t : Tx) → tx_in t candidates.new.txs ≡ (tx_in t (doomed_by self.old.local tx) || tx_in t candidates.old.txs) }
        ensures limit { candidates.new.limit ≡ candidates.old.limit }
    {
        self.deps.mark_dependents(tx);
        candidates.insert_all(self.deps.marks());
    }

    /// Whom the records from the durable front up to this one concern are candidates besides: of a COMMIT its transaction and those that depend on
    /// it, of a PREPARE, a CLR or an UNADD its transaction. Takes no memory.
    pub fn note_landed(&self, upto: u64, candidates: &mut Candidates)
        requires front { (self.now.durable ≤ upto) × (upto ≤ length (self.now.local).log) }
        requires room { HasRoomBy (concern (self.now.local).pairs (slice_range (self.now.local).log self.now.durable upto)) candidates.old }
        ensures txs { (x : Tx) → tx_in x candidates.new.txs ≡ (concern (self.now.local).pairs (slice_range (self.now.local).log self.now.durable upto) x || tx_in x candidates.old.txs) }
        ensures limit { candidates.new.limit ≡ candidates.old.limit }
    {
        let records = self.buffer.records(self.buffer.durable(), upto);
        note_records(&self.deps, records, candidates);
    }
}

/// Whom a record concerns are candidates besides.
fn note_record(deps: &Deps, one: &LogRecord, candidates: &mut Candidates)
    requires { HasRoomBy (concerns deps.now.pairs one.now) candidates.old }
    ensures txs { (x : Tx) → tx_in x candidates.new.txs ≡ (concerns deps.now.pairs one.now x || tx_in x candidates.old.txs) }
    ensures limit { candidates.new.limit ≡ candidates.old.limit }
{
    match one {
        LogRecord::Commit { tx, .. } => {
            candidates.insert(*tx);
            candidates.insert_all(deps.successors(*tx));
        }
        LogRecord::Prepare { tx, .. } => candidates.insert(*tx),
        LogRecord::Clr { tx, .. } => candidates.insert(*tx),
        LogRecord::Unadd { tx, .. } => candidates.insert(*tx),
        _ => {}
    }
}

/// Whom the records concern are candidates besides.
fn note_records(deps: &Deps, records: &[LogRecord], candidates: &mut Candidates)
    requires { HasRoomBy (concern deps.now.pairs records.now) candidates.old }
    ensures txs { (x : Tx) → tx_in x candidates.new.txs ≡ (concern deps.now.pairs records.now x || tx_in x candidates.old.txs) }
    ensures limit { candidates.new.limit ≡ candidates.old.limit }
{
    for one in records {
        note_record(deps, one, candidates);
    }
}
