//! The transactions of a shard.
ghost use Rattle.std.specs.Prelude.{◌≡◌};
ghost use Rattle.clv_base.specs.Undo.{stage_of as stage_in};

use cascade_undo::Deps;
use clv_base::logs::LogRecord;
use clv_base::names::TxId;
use clv_base::state::{Held, Stage};
use lock_table::Locks;
use log_buffer::LogBuffer;
use ordered_store::Store;
use std::marker::Model;
use tx_table::PartTable;

/// The records, locks, log, dependencies and parts of one shard, in one epoch.
#[derive(Drop)]
pub struct ShardTx<S: Store + Drop, L: Locks + Drop> {
    pub(crate) shard: u32,
    pub(crate) epoch: u64,
    pub(crate) store: S,
    pub(crate) locks: L,
    pub(crate) parts: PartTable,
    pub(crate) deps: Deps,
    pub(crate) buffer: LogBuffer<LogRecord>,
}

impl<S: Store + Drop, L: Locks + Drop> Model for ShardTx<S, L> {
    ghost use Rattle.txn_core.specs.State.{TxState};
    ghost use Rattle.txn_core.specs.Sound.{IsKept};

    ghost Value = { TxState };

    ghost view = { λ s. record {
      shard = s.shard;
      local = record { records = S.records s.store; locks = L.rows s.locks; parts = s.parts.entries; pairs = s.deps.pairs; log = s.buffer.records; epoch = s.epoch };
      durable = s.buffer.durable;
      taken = s.buffer.taken;
      room = s.buffer.room;
      pairs_room = s.deps.room;
    } };

    ghost invariant = { λ s. IsKept s.deps.commits (record { records = S.records s.store; locks = L.rows s.locks; parts = s.parts.entries; pairs = s.deps.pairs; log = s.buffer.records; epoch = s.epoch }) s.buffer.room };
}

impl<S: Store + Drop, L: Locks + Drop> ShardTx<S, L> {
    ghost use Rattle.txn_core.specs.Sound.{IsKept};

    /// The transactions of a shard, made of what they work on: the dependencies have the COMMITs of the log; each that depends on another has
    /// its part here; each part's writes that stand have their records, and its locks; each ghost bears a lock; each record of the log
    /// has a spelling; and the log has room for a CLR or UNADD for each standing write of a part that isn't gone, and an ABORT for each that has
    /// one. Takes no memory.
    pub fn new(
        shard: u32,
        epoch: u64,
        store: S,
        locks: L,
        parts: PartTable,
        deps: Deps,
        buffer: LogBuffer<LogRecord>,
    ) -> Self
        requires { IsKept deps.commits (record { records = S.records store; locks = L.rows locks; parts = parts.entries; pairs = deps.pairs; log = buffer.records; epoch = epoch }) buffer.room }
        ensures shard { result.shard ≡ shard }
        ensures local { result.local ≡ record { records = S.records store; locks = L.rows locks; parts = parts.entries; pairs = deps.pairs; log = buffer.records; epoch = epoch } }
        ensures fronts { (result.durable ≡ buffer.durable) × (result.taken ≡ buffer.taken) × (result.room ≡ buffer.room) }
        ensures pairs_room { result.pairs_room ≡ deps.room }
    {
        ShardTx {
            shard,
            epoch,
            store,
            locks,
            parts,
            deps,
            buffer,
        }
    }

    /// How far the transaction's part here is, where it is known.
    pub fn stage_of(&self, tx: TxId) -> Option<Stage>
        ensures { result ≡ stage_in self.now.local tx }
    {
        match self.parts.get(tx) {
            Some(part) => Some(part.stage),
            None => None,
        }
    }

    /// The shard's epoch.
    pub fn epoch(&self) -> u64
        ensures { result ≡ (self.now.local).epoch }
    {
        self.epoch
    }
}
