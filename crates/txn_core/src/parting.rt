//! The parts of a shard's transactions, taken apart.
ghost use Rattle.std.specs.Prelude.{◌≡◌};
ghost use Rattle.txn_core.specs.State.{AreSettled};

use crate::shard::ShardTx;
use cascade_undo::Deps;
use clv_base::logs::LogRecord;
use clv_base::names::TxId;
use clv_base::state::Held;
use lock_table::Locks;
use log_buffer::LogBuffer;
use ordered_store::Store;
use tx_table::PartTable;

/// What the transactions of a shard work on.
#[derive(Drop)]
pub struct TxParts<S: Store + Drop, L: Locks + Drop> {
    pub store: S,
    pub locks: L,
    pub parts: PartTable,
    pub deps: Deps,
    pub buffer: LogBuffer<LogRecord>,
}

impl<S: Store + Drop, L: Locks + Drop> ShardTx<S, L> {
    /// What the transactions work on, given back. Takes no memory.
    pub fn into_parts(self) -> TxParts<S, L>
        ensures records { S.records result.store ≡ (self.local).records }
        ensures locks { L.rows result.locks ≡ (self.local).locks }
        ensures parts { result.parts.entries ≡ (self.local).parts }
        ensures pairs { result.deps.pairs ≡ (self.local).pairs }
        ensures settled { AreSettled result.deps.commits (self.local).log }
        ensures log { result.buffer.records ≡ (self.local).log }
        ensures fronts { (result.buffer.durable ≡ self.durable) × (result.buffer.taken ≡ self.taken) }
        ensures room { (result.buffer.room ≡ self.room) × (result.deps.room ≡ self.pairs_room) }
    {
        TxParts {
            store: self.store,
            locks: self.locks,
            parts: self.parts,
            deps: self.deps,
            buffer: self.buffer,
        }
    }

    /// The records, given away. Takes no memory.
    pub fn into_store(self) -> S
        ensures { S.records result ≡ (self.local).records }
    {
        self.store
    }
}
