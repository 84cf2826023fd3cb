//! A ghost without a lock goes.
ghost use Rattle.std.specs.Prelude.{◌≡◌, ◌≤◌};
ghost use Rattle.shard_ops.specs.Ghosts.{is_ghost as tells_ghost, without_ghost_on};

use clv_base::modes::{Anchor, Found};
use lock_table::Locks;
use ordered_store::Store;

/// Whether this is a ghost.
fn is_ghost(found: Found) -> bool
    ensures { result ≡ tells_ghost found }
{
    match found {
        Found::Ghost => true,
        Found::Live(_) | Found::Absent => false,
    }
}

/// The record on an anchor goes, where it is a ghost and nobody holds a lock on it; else all stay.
pub(crate) fn purge_on<S: Store, L: Locks>(store: &mut S, locks: &L, anchor: Anchor)
    ensures records { S.records store.new ≡ without_ghost_on anchor (L.rows locks.now) (S.records store.old) }
    ensures room { S.room store.old ≤ S.room store.new }
{
    let Anchor::At(key) = anchor else {
        return;
    };
    if is_ghost(store.get(key)) && locks.free(anchor) {
        store.purge(key);
    }
}
