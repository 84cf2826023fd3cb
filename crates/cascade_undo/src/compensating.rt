//! The CLRs and UNADDs of the writes of a set of transactions, from the newest one down.
ghost use Rattle.std.specs.Prelude.{◌≡◌, ◌≤◌, ◌<◌, ◌+◌, ◌++◌, [], ◌∷◌, length};
ghost use Rattle.std.specs.List.Sorted.{IsStrictlySortedBy};
ghost use Rattle.clv_base.specs.Orders.{tx_cmp};
ghost use Rattle.clv_base.specs.Logs.{standing, without_newest};
ghost use Rattle.clv_base.specs.Undo.{clrs_of, compensation, newest_lsn};
ghost use Rattle.cascade_undo.specs.Writes.{writes_of};

use crate::write::{Write, newest_write};
use clv_base::logs::LogRecord;
use clv_base::names::TxId;
use log_buffer::LogBuffer;

/// The CLR or UNADD of a transaction's newest write that stands.
pub(crate) fn append_clr(buffer: &mut LogBuffer<LogRecord>, write: Write)
    requires { 0 < buffer.old.room }
    ensures log { buffer.new.records ≡ buffer.old.records ++ compensation write.tx (newest_lsn write.tx (without_newest write.tx (standing buffer.old.records))) write.key write.change ∷ [] }
    ensures fronts { (buffer.new.durable ≡ buffer.old.durable) × (buffer.new.taken ≡ buffer.old.taken) }
    ensures room { buffer.old.room ≡ buffer.new.room + 1 }
{
    let undo_next = buffer.second_newest(write.tx);
    buffer.append_reserved(write.change.into_undo(write.tx, undo_next, write.key));
}

/// Appends a CLR or UNADD for each write of the transactions, which rise, that stands in the log, from the greatest LSN down, and touches no store:
/// the records that `undo_writes` appends. Takes no memory. The next of these writes is found as there.
pub fn compensate(buffer: &mut LogBuffer<LogRecord>, set: &[TxId])
    requires rising { IsStrictlySortedBy tx_cmp set.now }
    requires room { length (writes_of set.now (standing buffer.old.records)) ≤ buffer.old.room }
    ensures log { buffer.new.records ≡ buffer.old.records ++ clrs_of set.now (standing buffer.old.records) }
    ensures fronts { (buffer.new.durable ≡ buffer.old.durable) × (buffer.new.taken ≡ buffer.old.taken) }
    ensures room { buffer.old.room ≡ buffer.new.room + length (writes_of set.now (standing buffer.old.records)) }
{
    let mut below = buffer.end();
    while let Some(write) = newest_write(buffer, set, below) {
        below = write.lsn;
        append_clr(buffer, write);
    }
}
