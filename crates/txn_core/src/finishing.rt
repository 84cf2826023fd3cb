//! What decides a transaction here, and the end of its part.
ghost use Rattle.std.specs.Prelude.{◌≡◌, ◌≤◌, ◌<◌, ◌+◌, [], ◌∷◌, ◌++◌, true, length, None};
ghost use Rattle.clv_base.specs.declared.logs.LogRecord.TheVariants.{Commit, End};
ghost use Rattle.clv_base.specs.FileRules.{has_spelling};
ghost use Rattle.clv_base.specs.Undo.{release_parts};
ghost use Rattle.clv_base.specs.OneShard.{purge};
ghost use Rattle.clv_base.specs.Due.{append_log};
ghost use Rattle.txn_core.specs.State.{IsSameBut};
ghost use Rattle.txn_core.specs.Sound.{HasSpare, KeepsSpare, SpendsSpare, UsesSpare};

use crate::committing::write_commit;
use crate::ending::finish_in;
use crate::shard::ShardTx;
use crate::trimming::room_without;
use clv_base::logs::LogRecord;
use clv_base::names::TxId;
use clv_base::parts::ShardList;
use lock_table::Locks;
use ordered_store::Store;
use shard_ops::release_all;

impl<S: Store + Drop, L: Locks + Drop> ShardTx<S, L> {
    /// A COMMIT of the transaction, with the shards that acknowledge it, goes to the log's end. Takes no memory.
    pub fn commit_part(&mut self, tx: TxId, parts: ShardList) -> u64
        requires room { HasSpare 1 self.old × (0 < self.old.pairs_room) }
        requires spelled { has_spelling (Commit tx parts) ≡ true }
        ensures lsn { result ≡ length (self.old.local).log }
        ensures committed { IsSameBut self.old (append_log (Commit tx parts ∷ []) self.old.local) self.new }
        ensures room { SpendsSpare 1 self.old self.new }
        ensures spent { UsesSpare 1 self.old self.new }
        ensures pairs_room { self.old.pairs_room ≤ self.new.pairs_room + 1 }
        ensures pairs_given_back { self.new.pairs_room ≤ self.old.pairs_room }
    {
        write_commit(&mut self.buffer, &mut self.deps, tx, parts)
    }

    /// An END of the transaction goes to the log's end. Takes no memory.
    pub fn end_transaction(&mut self, tx: TxId)
        requires room { HasSpare 1 self.old }
        requires spelled { has_spelling (End tx) ≡ true }
        ensures ended { IsSameBut self.old (append_log (End tx ∷ []) self.old.local) self.new }
        ensures room { SpendsSpare 1 self.old self.new }
        ensures spent { UsesSpare 1 self.old self.new }
        ensures pairs_room { self.old.pairs_room ≤ self.new.pairs_room }
        ensures pairs_given_back { self.new.pairs_room ≤ self.old.pairs_room }
    {
        self.buffer.append_reserved(LogRecord::End { tx });
    }

    /// The transaction's part is finished: its locks are given up, with the ghosts that bear no lock then, its predecessors are forgotten, and
    /// it is gone by no abort. The room for its undo is given back. Takes no memory.
    pub fn finish_part(&mut self, tx: TxId)
        ensures finished { IsSameBut self.old (purge (release_parts (tx ∷ []) None self.old.local)) self.new }
        ensures room { KeepsSpare self.old self.new }
        ensures given_back { KeepsSpare self.new self.old }
        ensures pairs_room { self.old.pairs_room ≤ self.new.pairs_room }
        ensures pairs_given_back { self.new.pairs_room ≤ self.old.pairs_room }
    {
        let kept = room_without(&self.buffer, &self.parts, tx);
        release_all(&mut self.store, &mut self.locks, &[tx]);
        finish_in(&mut self.parts, tx);
        self.deps.forget(tx);
        self.buffer.trim(kept);
    }
}
