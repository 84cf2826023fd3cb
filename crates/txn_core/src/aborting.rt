//! The abort of a transaction here, whatever its part.
ghost use Rattle.std.specs.Prelude.{◌≡◌, ◌≤◌, cond, not};
ghost use Rattle.std.specs.List.{filter};
ghost use Rattle.clv_base.specs.Orders.{tx_same};
ghost use Rattle.clv_base.specs.Undo.{roll_back as without};
ghost use Rattle.clv_base.specs.OneShard.{purge};
ghost use Rattle.cascade_undo.specs.Dependencies.{doomed};
ghost use Rattle.txn_core.specs.State.{IsSameBut};
ghost use Rattle.txn_core.specs.Sound.{is_in, KeepsSpare};

use crate::ending::end_parts;
use crate::shard::ShardTx;
use crate::trimming::room_beyond;
use cascade_undo::{Deps, roll_back};
use clv_base::names::TxId;
use clv_base::state::{Held, Stage};
use lock_table::Locks;
use ordered_store::Store;
use shard_ops::release_all;
use tx_table::PartTable;

/// Whether the transaction's part is active or closed.
pub(crate) fn is_here(parts: &PartTable, tx: TxId) -> bool
    ensures { result ≡ is_in parts.now.entries tx }
{
    match parts.get(tx) {
        Some(part) => match part.stage {
            Stage::Active | Stage::Closed => true,
            Stage::Gone { .. } => false,
        },
        None => false,
    }
}

/// Marks those that the abort of the transaction takes away: it and all that depend on it, but it alone where its part isn't here.
fn mark_doomed(deps: &mut Deps, parts: &PartTable, tx: TxId)
    ensures marked { deps.new.marked ≡ cond (is_in parts.now.entries tx) (doomed deps.old.pairs tx) (filter (λ t. not (tx_same tx t)) (doomed deps.old.pairs tx)) }
    ensures pairs { deps.new.pairs ≡ deps.old.pairs }
    ensures commits { deps.new.commits ≡ deps.old.commits }
    ensures room { deps.new.room ≡ deps.old.room }
{
    deps.mark_dependents(tx);
    if !is_here(parts, tx) {
        deps.unmark(tx);
    }
}

impl<S: Store + Drop, L: Locks + Drop> ShardTx<S, L> {
    /// The transaction, where its part is here, and all that depend on it are rolled back: the log gets their ABORTs, CLRs and UNADDs, what they
    /// wrote is taken back, their locks are given up, with the ghosts that bear no lock then, and their parts are gone. The room for their undo is
    /// given back, as far as it wasn't used. Takes no memory.
    pub fn abort(&mut self, tx: TxId)
        ensures without { IsSameBut self.old (purge (without tx self.old.local)) self.new }
        ensures room { KeepsSpare self.old self.new }
        ensures given_back { KeepsSpare self.new self.old }
        ensures pairs_room { self.old.pairs_room ≤ self.new.pairs_room }
        ensures pairs_given_back { self.new.pairs_room ≤ self.old.pairs_room }
    {
        let _end = self.buffer.end();
        mark_doomed(&mut self.deps, &self.parts, tx);
        let kept = room_beyond(&self.buffer, self.deps.marks());
        roll_back(&mut self.store, &mut self.buffer, &self.deps);
        release_all(&mut self.store, &mut self.locks, self.deps.marks());
        end_parts(&mut self.parts, self.deps.marks(), tx);
        self.deps.forget_marked();
        self.buffer.trim(kept);
    }
}
