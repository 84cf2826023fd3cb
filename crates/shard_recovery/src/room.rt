//! Room in the list of a log's records for those that a restart adds.
ghost use Rattle.std.specs.Prelude.{◌≡◌, IfOk};

use clv_base::logs::LogRecord;
use clv_base::names::TxId;
use log_analysis::LogFacts;
use std::alloc::AllocError;

/// How many records a restart adds at most: an ABORT for each loser, a CLR or UNADD for each of its writes that stand, and the RESTART.
fn most_added(facts: &LogFacts, losers: &[TxId]) -> usize {
    let mut count = losers.len().saturating_add(1);
    for tx in losers {
        count = count.saturating_add(facts.get(*tx).standing);
    }
    count
}

/// The records, with places for those that a restart adds. Where the list has to move it moves now, before much else is in memory.
pub(crate) fn with_room(
    mut records: Vec<LogRecord>,
    facts: &LogFacts,
    losers: &[TxId],
) -> Result<Vec<LogRecord>, AllocError>
    ensures { IfOk result (λ r. r.items ≡ records.items) }
{
    records.reserve(most_added(facts, losers))?;
    Ok(records)
}
