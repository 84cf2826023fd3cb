//! Giving back the room that nothing open wants.
ghost use Rattle.std.specs.Prelude.{◌≡◌, ◌+◌, ◌≤◌, [], ◌∷◌, cond, min, OnOk, OnErr};
ghost use Rattle.std.specs.List.Sorted.{IsStrictlySortedBy};
ghost use Rattle.clv_base.specs.Orders.{tx_cmp, tx_in};
ghost use Rattle.txn_core.specs.Sound.{is_here as here_in, is_in, owed_by, trimmed};

use crate::aborting::is_here;
use crate::shard::ShardTx;
use clv_base::logs::LogRecord;
use clv_base::names::TxId;
use lock_table::{Locks, Memory};
use log_buffer::LogBuffer;
use ordered_store::Store;
use std::alloc::Global;
use tx_table::PartTable;

/// How many records the undo of these transactions, each of which is named once, may write: a CLR or UNADD for each of their writes that stand,
/// and an ABORT for each that has one.
pub(crate) fn owed_to(buffer: &LogBuffer<LogRecord>, txs: &[TxId]) -> usize
    requires rising { IsStrictlySortedBy tx_cmp txs.now }
    requires room { owed_by (λ t. tx_in t txs.now) buffer.now.records ≤ buffer.now.room }
    ensures { result ≡ owed_by (λ t. tx_in t txs.now) buffer.now.records }
{
    let _no_more_than_reserved = buffer.room();
    let mut count = 0;
    for tx in txs {
        count += buffer.standing_writes(*tx) + usize::from(buffer.has_standing(*tx));
    }
    count
}

/// The room that isn't for the undo of these.
pub(crate) fn room_beyond(buffer: &LogBuffer<LogRecord>, txs: &[TxId]) -> usize
    requires rising { IsStrictlySortedBy tx_cmp txs.now }
    requires room { owed_by (λ t. tx_in t txs.now) buffer.now.records ≤ buffer.now.room }
    ensures { result + owed_by (λ t. tx_in t txs.now) buffer.now.records ≡ buffer.now.room }
{
    let room = buffer.room();
    room - owed_to(buffer, txs)
}

/// The room that isn't for the undo of the transaction's part, where it is here.
pub(crate) fn room_without(buffer: &LogBuffer<LogRecord>, parts: &PartTable, tx: TxId) -> usize
    requires { owed_by (is_in parts.now.entries) buffer.now.records ≤ buffer.now.room }
    ensures { result + cond (is_in parts.now.entries tx) (owed_by (λ t. tx_in t (tx ∷ [])) buffer.now.records) 0 ≡ buffer.now.room }
{
    if is_here(parts, tx) {
        room_beyond(buffer, &[tx])
    } else {
        buffer.room()
    }
}

impl<S: Store + Drop, L: Locks + Drop> ShardTx<S, L> {
    /// Gives back the room that is beyond so many records, beside the undo of the parts that are here, and beyond so many settled transactions. It costs what is here. Where there is no memory to list that, all is as before.
    pub fn trim(&mut self, alloc: Global, count: usize) -> Result<(), Memory>
        ensures ok { OnOk result (self.new ≡ trimmed count self.old) }
        ensures err { OnErr result (self.new ≡ self.old) }
    {
        self.parts.rising();
        let here = match self.here(alloc) {
            Ok(here) => here,
            Err(memory) => return Err(memory),
        };
        let room = self.buffer.room();
        let undo = owed_to(&self.buffer, &here);
        let spare = room - undo;
        self.buffer.trim(undo + spare.min(count));
        self.deps.trim(count);
        Ok(())
    }

    /// Gives back the room that is beyond so many records, into which the undo of the parts that are here fits, and beyond so many
    /// settled transactions. Takes no memory.
    pub(crate) fn trim_to(&mut self, room: usize, pairs: usize)
        requires { owed_by (here_in self.old.local) (self.old.local).log ≤ room }
        ensures { self.new ≡ record self.old { room = min self.old.room room; pairs_room = min self.old.pairs_room pairs } }
    {
        self.buffer.trim(room);
        self.deps.trim(pairs);
    }
}
