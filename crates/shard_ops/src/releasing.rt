//! Giving up locks, with the ghosts that no lock is on any more.
ghost use Rattle.std.specs.Prelude.{◌≡◌, ◌≤◌, [], ◌∷◌};
ghost use Rattle.clv_base.specs.Locks.{release as without_locks_of};
ghost use Rattle.clv_base.specs.Needs.{without_ghosts};
ghost use Rattle.shard_ops.specs.Ghosts.{GhostsAreLocked};

use crate::purging::purge_on;
use clv_base::names::TxId;
use lock_table::Locks;
use ordered_store::Store;

/// The transaction gives up its locks one after another, and a ghost goes with the last lock on it.
fn release_one<S: Store, L: Locks>(store: &mut S, locks: &mut L, tx: TxId)
    requires { GhostsAreLocked (L.rows locks.old) (S.records store.old) }
    ensures rows { L.rows locks.new ≡ without_locks_of (tx ∷ []) (L.rows locks.old) }
    ensures records { S.records store.new ≡ without_ghosts (L.rows locks.new) (S.records store.old) }
    ensures room { S.room store.old ≤ S.room store.new }
{
    while let Some(anchor) = locks.release_next(tx) {
        purge_on(store, locks, anchor);
    }
}

/// The transactions give up all their locks, and each ghost that bears no lock any more goes. Room in the lock table ends. Takes no memory.
pub fn release_all<S: Store, L: Locks>(store: &mut S, locks: &mut L, txs: &[TxId])
    requires { GhostsAreLocked (L.rows locks.old) (S.records store.old) }
    ensures rows { L.rows locks.new ≡ without_locks_of txs.now (L.rows locks.old) }
    ensures records { S.records store.new ≡ without_ghosts (L.rows locks.new) (S.records store.old) }
    ensures room { S.room store.old ≤ S.room store.new }
{
    for tx in txs {
        release_one(store, locks, *tx);
    }
}
