//! The newest write of a set of transactions, or of one, in a log.
ghost use Rattle.std.specs.Prelude.{◌≡◌, ◌+◌, ◌<◌, [], None, Some, slice_get, IfSome, IsNone};
ghost use Rattle.std.specs.List.Sorted.{IsStrictlySortedBy};
ghost use Rattle.clv_base.specs.Orders.{tx_cmp};
ghost use Rattle.clv_base.specs.Logs.{standing};
ghost use Rattle.clv_base.specs.Undo.{newest_lsns};
ghost use Rattle.cascade_undo.specs.Steps.{newest_in, AreBelow, IsNewestIn, IsNewestOf, write_in};

use crate::marks::{contains, greatest_lsn};
use clv_base::changes::Change;
use clv_base::logs::LogRecord;
use clv_base::names::TxId;
use clv_base::values::copy_of;
use log_buffer::LogBuffer;

/// An UPDATE or ADD at its LSN: the transaction, the key, and what is done to its value.
#[derive(Drop)]
pub(crate) struct Write {
    pub(crate) lsn: u64,
    pub(crate) tx: TxId,
    pub(crate) key: u64,
    pub(crate) change: Change,
}

/// What the record at an LSN writes.
fn write_of(lsn: u64, found: &LogRecord) -> Option<Write>
    ensures { result ≡ write_in lsn (Some found.now) }
{
    match found {
        LogRecord::Update {
            tx,
            key,
            before,
            after,
        } => Some(Write {
            lsn,
            tx: *tx,
            key: *key,
            change: Change::Sets(copy_of(before), copy_of(after)),
        }),
        LogRecord::Add { tx, key, by } => Some(Write {
            lsn,
            tx: *tx,
            key: *key,
            change: Change::Adds(*by),
        }),
        _ => None,
    }
}

/// What is written at an LSN.
fn write_at(buffer: &LogBuffer<LogRecord>, lsn: u64) -> Option<Write>
    ensures { result ≡ write_in lsn (slice_get buffer.now.records lsn) }
{
    match buffer.lsn_at(lsn) {
        Some(record) => write_of(lsn, record),
        None => None,
    }
}

/// The write at an LSN, where it is the newest one of the set that stands, and none stands above.
fn newest_at(buffer: &LogBuffer<LogRecord>, set: &[TxId], lsn: u64) -> Option<Write>
    requires rising { IsStrictlySortedBy tx_cmp set.now }
    requires below { AreBelow set.now (lsn + 1) (standing buffer.now.records) }
    ensures newest { IfSome result (IsNewestIn set.now (standing buffer.now.records)) }
    ensures none { IsNone result → AreBelow set.now lsn (standing buffer.now.records) }
{
    let write = write_at(buffer, lsn)?;
    if contains(set, write.tx) && buffer.newest(write.tx) == Some(lsn) {
        Some(write)
    } else {
        None
    }
}

/// The newest write of the set that stands, where all are below an LSN and it is one of as many records under that as the set has
/// transactions.
fn newest_near(buffer: &LogBuffer<LogRecord>, set: &[TxId], below: u64) -> Option<Write>
    requires rising { IsStrictlySortedBy tx_cmp set.now }
    requires below { AreBelow set.now below (standing buffer.now.records) }
    ensures { IfSome result (IsNewestIn set.now (standing buffer.now.records)) }
{
    let from = below.saturating_sub(set.len() as u64);
    for lsn in (from..below).rev() {
        if let Some(write) = newest_at(buffer, set, lsn) {
            return Some(write);
        }
    }
    None
}

/// The newest write of the set that stands, by a look at the newest one of each transaction.
fn newest_of_each(buffer: &LogBuffer<LogRecord>, set: &[TxId]) -> Option<Write>
    ensures newest { IfSome result (IsNewestIn set.now (standing buffer.now.records)) }
    ensures none { IsNone result → newest_in set.now (standing buffer.now.records) ≡ None }
{
    let lsn = greatest_lsn(buffer, set)?;
    write_at(buffer, lsn)
}

/// The newest write of the set that stands, where all are below an LSN.
pub(crate) fn newest_write(buffer: &LogBuffer<LogRecord>, set: &[TxId], below: u64) -> Option<Write>
    requires rising { IsStrictlySortedBy tx_cmp set.now }
    requires below { AreBelow set.now below (standing buffer.now.records) }
    ensures newest { IfSome result (IsNewestIn set.now (standing buffer.now.records)) }
    ensures none { IsNone result → newest_in set.now (standing buffer.now.records) ≡ None }
{
    // The records are fewer where the set's writes stand close together, the transactions where others' records stand between. So this
    // takes no more than twice the looks of the shorter way.
    match newest_near(buffer, set, below) {
        Some(write) => Some(write),
        None => newest_of_each(buffer, set),
    }
}

/// The newest write of a transaction that stands, where so many of them are still to be taken back.
pub(crate) fn newest_back(buffer: &LogBuffer<LogRecord>, tx: TxId, left: usize) -> Option<Write>
    ensures newest { IfSome result (λ w. (0 < left) × IsNewestOf tx (standing buffer.now.records) w) }
    ensures none { IsNone result → newest_lsns left tx (standing buffer.now.records) ≡ [] }
{
    if left == 0 {
        return None;
    }
    newest_of_each(buffer, &[tx])
}
