// What the record at a place in a log lists.

ghost use Rattle.std.specs.Prelude.{◌≡◌};
ghost use Rattle.log_analysis.specs.Lists.{home_at as home_in, listed_at as listed_in, pairs_at as pairs_in, parts_at as parts_in};

use clv_base::logs::LogRecord;
use clv_base::names::TxId;
use clv_base::values::Value;

/// The home that the PREPARE at this LSN names, none where no PREPARE stands there.
pub fn home_at(records: &[LogRecord], at: Option<usize>) -> Option<u32>
    ensures { result ≡ home_in records.now at }
{
    match records.get(at?) {
        Some(LogRecord::Prepare { home, .. }) => Some(*home),
        _ => None,
    }
}

/// The predecessors that the PREPARE at this LSN lists, none where no PREPARE stands there.
pub fn listed_at(records: &[LogRecord], at: Option<usize>) -> &[TxId]
    ensures { result.now ≡ listed_in records.now at }
{
    let Some(lsn) = at else {
        return &[];
    };
    match records.get(lsn) {
        Some(LogRecord::Prepare { predecessors, .. }) => predecessors.as_slice(),
        _ => &[],
    }
}

/// The shards that the COMMIT at this LSN names, none where no COMMIT stands there.
pub fn parts_at(records: &[LogRecord], at: Option<usize>) -> &[u32]
    ensures { result.now ≡ parts_in records.now at }
{
    let Some(lsn) = at else {
        return &[];
    };
    match records.get(lsn) {
        Some(LogRecord::Commit { parts, .. }) => parts.as_slice(),
        _ => &[],
    }
}

/// The pairs of the checkpoint at this LSN, none where no checkpoint stands there.
pub fn pairs_at(records: &[LogRecord], at: Option<usize>) -> &[(u64, Value)]
    ensures { result.now ≡ pairs_in records.now at }
{
    let Some(lsn) = at else {
        return &[];
    };
    match records.get(lsn) {
        Some(LogRecord::Check { base, .. }) => base.as_slice(),
        _ => &[],
    }
}
