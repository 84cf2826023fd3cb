//! The ABORTs of the losers.
ghost use Rattle.std.specs.Prelude.{◌≡◌, ◌≤◌, ◌+◌, ◌++◌, length, not, IfOk};
ghost use Rattle.std.specs.List.{filter};
ghost use Rattle.log_analysis.specs.Facts.{known};
ghost use Rattle.shard_recovery.specs.Aborting.{aborts};

use clv_base::logs::LogRecord;
use clv_base::names::TxId;
use log_analysis::LogFacts;
use log_buffer::LogBuffer;
use std::alloc::{AllocError, Global};

/// Whether the log that is known has no ABORT of the transaction.
fn is_unaborted(facts: &LogFacts, tx: &TxId) -> bool
    ensures { result ≡ not (known facts.now tx.now).is_aborted }
{
    !facts.get(*tx).is_aborted
}

/// Those of the transactions that have no ABORT in the log that is known.
pub(crate) fn unaborted(
    alloc: Global,
    facts: &LogFacts,
    txs: &[TxId],
) -> Result<Vec<TxId>, AllocError>
    ensures { IfOk result (λ found. found.items ≡ filter (λ t. not (known facts.now t).is_aborted) txs.now) }
{
    txs.iter()
        .copied()
        .filter(|tx| is_unaborted(facts, tx))
        .collect(alloc)
}

/// An ABORT for each of the transactions, in their order.
pub(crate) fn append_aborts(buffer: &mut LogBuffer<LogRecord>, txs: &[TxId])
    requires { length txs.now ≤ buffer.old.room }
    ensures log { buffer.new.records ≡ buffer.old.records ++ aborts txs.now }
    ensures fronts { (buffer.new.durable ≡ buffer.old.durable) × (buffer.new.taken ≡ buffer.old.taken) }
    ensures room { buffer.old.room ≤ buffer.new.room + length txs.now }
{
    for tx in txs {
        buffer.append_reserved(LogRecord::Abort { tx: *tx });
    }
}
