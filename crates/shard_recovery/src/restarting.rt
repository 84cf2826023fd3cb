//! A restart: the log after it, and the records.
ghost use Rattle.std.specs.Prelude.{◌≡◌, ℕ, [], length, IfOk};
ghost use Rattle.std.specs.List.Sorted.{IsStrictlySortedBy};
ghost use Rattle.clv_base.specs.Orders.{tx_cmp};
ghost use Rattle.clv_base.specs.Logs.{in_doubt};
ghost use Rattle.log_analysis.specs.Facts.{Knows};
ghost use Rattle.clv_base.specs.Restarts.{losers as losers_of, log_after_restart, local_after};

use crate::rebuilding::{add_restart, rebuild};
use crate::room::with_room;
use crate::winners::fill;
use clv_base::logs::LogRecord;
use clv_base::names::TxId;
use log_analysis::LogFacts;
use log_buffer::LogBuffer;
use ordered_store::Store;
use std::alloc::{AllocError, Global};

/// The buffer of the log after a restart. Who has an ABORT is asked of the log only where somebody loses.
fn rewrite(
    alloc: Global,
    facts: LogFacts,
    records: Vec<LogRecord>,
    losers: &[TxId],
    run: u32,
    epoch: u64,
) -> Result<LogBuffer<LogRecord>, AllocError>
    requires knows { Knows facts records.items }
    requires rising { IsStrictlySortedBy tx_cmp losers.now }
    ensures log { IfOk result (λ b. (shard : ℕ) → losers.now ≡ losers_of shard records.items → b.records ≡ log_after_restart shard records.items run epoch) }
    ensures fronts { IfOk result (λ b. (b.durable ≡ length records.items) × (b.taken ≡ length records.items)) }
{
    if losers.is_empty() {
        drop(facts);
        return add_restart(alloc, records, losers, run, epoch);
    }
    rebuild(alloc, facts, records, losers, run, epoch)
}

/// Restarts a shard from the log that was found, of which it is known what it says of each transaction, and whose losers (rising) and
/// transactions in doubt are these. The store, which is empty, gets the records of the state after a restart: the values that the UPDATEs and
/// ADDs of the committed and of those in doubt leave, and ghosts at the keys that those in doubt wrote and that have no value. The buffer that
/// is given has the log after it: the records found, which are durable, and then what is still to be pushed: an ABORT for each loser that has
/// none, in rising order, the CLRs and UNADDs of the losers' writes that stand, from the greatest LSN down, and the RESTART. An `Err` leaves the
/// store in the middle of it. These records follow from the log: no loser's write is done in a store. Room is made in the store as records come
/// to need it, and in the buffer for what is still to be pushed: an ABORT for each loser, a CLR or UNADD for each of its writes, and the
/// RESTART.
pub(crate) fn restart_by<S: Store>(
    alloc: Global,
    store: &mut S,
    facts: LogFacts,
    records: Vec<LogRecord>,
    losers: &[TxId],
    doubtful: &[TxId],
    run: u32,
    epoch: u64,
) -> Result<LogBuffer<LogRecord>, AllocError>
    requires knows { Knows facts records.items }
    requires empty { S.records store.old ≡ [] }
    requires rising { IsStrictlySortedBy tx_cmp losers.now }
    ensures log { IfOk result (λ b. (shard : ℕ) → losers.now ≡ losers_of shard records.items → b.records ≡ log_after_restart shard records.items run epoch) }
    ensures fronts { IfOk result (λ b. (b.durable ≡ length records.items) × (b.taken ≡ length records.items)) }
    ensures records { IfOk result (λ b. (shard : ℕ) → doubtful.now ≡ in_doubt shard records.items → S.records store.new ≡ (local_after shard epoch (log_after_restart shard records.items run epoch)).records) }
{
    let records = with_room(records, &facts, losers)?;
    fill(alloc, store, &facts, &records, doubtful)?;
    rewrite(alloc, facts, records, losers, run, epoch)
}

/// The same for a log of which nothing is known yet.
pub fn restart<S: Store>(
    alloc: Global,
    store: &mut S,
    records: Vec<LogRecord>,
    losers: &[TxId],
    doubtful: &[TxId],
    run: u32,
    epoch: u64,
) -> Result<LogBuffer<LogRecord>, AllocError>
    requires empty { S.records store.old ≡ [] }
    requires rising { IsStrictlySortedBy tx_cmp losers.now }
    ensures log { IfOk result (λ b. (shard : ℕ) → losers.now ≡ losers_of shard records.items → b.records ≡ log_after_restart shard records.items run epoch) }
    ensures fronts { IfOk result (λ b. (b.durable ≡ length records.items) × (b.taken ≡ length records.items)) }
    ensures records { IfOk result (λ b. (shard : ℕ) → doubtful.now ≡ in_doubt shard records.items → S.records store.new ≡ (local_after shard epoch (log_after_restart shard records.items run epoch)).records) }
{
    let facts = LogFacts::of_log(alloc, &records)?;
    restart_by(alloc, store, facts, records, losers, doubtful, run, epoch)
}
