//! What a restart makes of a log.
ghost use Rattle.std.specs.Prelude.{◌≡◌, ◌≤◌, ◌+◌, ℕ, length, IfOk};
ghost use Rattle.std.specs.List.Sorted.{IsStrictlySortedBy};
ghost use Rattle.clv_base.specs.Orders.{tx_cmp};
ghost use Rattle.clv_base.specs.Logs.{standing};
ghost use Rattle.clv_base.specs.Restarts.{losers as losers_of, log_after_restart};
ghost use Rattle.log_analysis.specs.Facts.{Knows};
ghost use Rattle.cascade_undo.specs.Writes.{writes_of};

use crate::aborts::{append_aborts, unaborted};
use cascade_undo::compensate;
use clv_base::logs::LogRecord;
use clv_base::names::TxId;
use log_analysis::LogFacts;
use log_buffer::LogBuffer;
use std::alloc::{AllocError, Global};

/// How many writes of these transactions stand, if each is there once.
fn writes_standing(buffer: &LogBuffer<LogRecord>, txs: &[TxId]) -> usize
    ensures { length (writes_of txs.now (standing buffer.now.records)) ≤ result }
{
    let _no_more_than_all = buffer.end();
    let mut count: usize = 0;
    for tx in txs {
        count = count.saturating_add(buffer.standing_writes(*tx));
    }
    count
}

/// The buffer of a log whose records are durable, with room for the records of a restart: an ABORT for each loser, a CLR or UNADD for each of
/// its writes that stand, and the RESTART.
fn buffer_of(
    alloc: Global,
    records: Vec<LogRecord>,
    losers: &[TxId],
) -> Result<LogBuffer<LogRecord>, AllocError>
    ensures records { IfOk result (λ b. b.records ≡ records.items) }
    ensures fronts { IfOk result (λ b. (b.durable ≡ length records.items) × (b.taken ≡ length records.items)) }
    ensures room { IfOk result (λ b. length losers.now + length (writes_of losers.now (standing records.items)) + 1 ≤ b.room) }
{
    let mut buffer = match LogBuffer::from_durable(alloc, records) {
        Ok(buffer) => buffer,
        Err(_) => return Err(AllocError),
    };
    let count = writes_standing(&buffer, losers).saturating_add(losers.len());
    buffer.reserve(count.saturating_add(1))?;
    Ok(buffer)
}

/// The buffer of a log after a restart that undoes nobody: the records found, which are durable, and the RESTART.
pub(crate) fn add_restart(
    alloc: Global,
    records: Vec<LogRecord>,
    losers: &[TxId],
    run: u32,
    epoch: u64,
) -> Result<LogBuffer<LogRecord>, AllocError>
    requires nobody { length losers.now ≡ 0 }
    ensures log { IfOk result (λ b. (shard : ℕ) → losers.now ≡ losers_of shard records.items → b.records ≡ log_after_restart shard records.items run epoch) }
    ensures fronts { IfOk result (λ b. (b.durable ≡ length records.items) × (b.taken ≡ length records.items)) }
{
    let mut buffer = match LogBuffer::from_durable(alloc, records) {
        Ok(buffer) => buffer,
        Err(_) => return Err(AllocError),
    };
    let last = LogRecord::Restart { run, epoch };
    buffer.reserve(1)?;
    buffer.append_reserved(last);
    Ok(buffer)
}

/// The buffer of a log after a restart that undoes the losers, which rise: the records found, which are durable, an ABORT for each loser
/// that has none, the CLRs and UNADDs of their writes that stand, from the greatest LSN down, and the RESTART.
pub(crate) fn rebuild(
    alloc: Global,
    facts: LogFacts,
    records: Vec<LogRecord>,
    losers: &[TxId],
    run: u32,
    epoch: u64,
) -> Result<LogBuffer<LogRecord>, AllocError>
    requires knows { Knows facts records.items }
    requires rising { IsStrictlySortedBy tx_cmp losers.now }
    ensures log { IfOk result (λ b. (shard : ℕ) → losers.now ≡ losers_of shard records.items → b.records ≡ log_after_restart shard records.items run epoch) }
    ensures fronts { IfOk result (λ b. (b.durable ≡ length records.items) × (b.taken ≡ length records.items)) }
{
    let fresh = unaborted(alloc, &facts, losers)?;
    drop(facts);
    let mut buffer = buffer_of(alloc, records, losers)?;
    append_aborts(&mut buffer, &fresh);
    compensate(&mut buffer, losers);
    buffer.append_reserved(LogRecord::Restart { run, epoch });
    Ok(buffer)
}
