// What stays of a record.

ghost use Rattle.std.specs.Prelude.{◌≡◌, ◌&&◌, ◌||◌, not, IfOk};
ghost use Rattle.std.specs.List.{filter};
ghost use Rattle.clv_base.specs.LogRules.{some_parts};
ghost use Rattle.clv_base.specs.Checkpoints.{kept_if as kept_where};
ghost use Rattle.log_analysis.specs.Doubt.{has_commit};
ghost use Rattle.checkpoint_taking.specs.Kept.{is_forgotten as is_let_go, kept_by, left_open, home_away, prepare_by};
ghost use Rattle.checkpoint_taking.specs.Lsns.{has_lsn};

use crate::Memory;
use crate::lsns::LsnSet;
use clv_base::lists::TxList;
use clv_base::logs::LogRecord;
use clv_base::names::TxId;
use clv_base::parts::ShardList;
use clv_base::values::copy_of;
use log_analysis::LogFacts;
use log_analysis::lists::home_at;
use std::alloc::Global;

fn is_committed(facts: &LogFacts, tx: TxId) -> bool
    ensures { result ≡ has_commit facts.now tx }
{
    facts.get(tx).commit.is_some()
}

fn is_left_open(facts: &LogFacts, tx: TxId) -> bool
    ensures { result ≡ left_open facts.now tx }
{
    !is_committed(facts, tx) && facts.get(tx).standing > 0
}

// Whether the transaction has a PREPARE for another home.
fn is_away(facts: &LogFacts, log: &[LogRecord], shard: u32, tx: TxId) -> bool
    ensures { result ≡ home_away facts.now log.now shard tx }
{
    match home_at(log, facts.get(tx).prepare) {
        Some(home) => home != shard,
        None => false,
    }
}

fn kept_if(keep: bool, r: LogRecord) -> LogRecord
    ensures { result ≡ kept_where keep r }
{
    if keep { r } else { LogRecord::Forgotten }
}

pub fn is_forgotten(r: &LogRecord) -> bool
    ensures { result ≡ is_let_go r.now }
{
    matches!(r, LogRecord::Forgotten)
}

// Those that have no COMMIT.
fn uncommitted(alloc: Global, facts: &LogFacts, listed: &[TxId]) -> Result<Vec<TxId>, Memory>
    ensures { IfOk result (λ v. v.items ≡ filter (λ p. not (has_commit facts.now p)) listed.now) }
{
    listed
        .iter()
        .copied()
        .filter(|p| !is_committed(facts, *p))
        .collect(alloc)
}

fn kept_prepare(
    alloc: Global,
    facts: &LogFacts,
    shard: u32,
    tx: TxId,
    home: u32,
    listed: &[TxId],
) -> Result<LogRecord, Memory>
    ensures { IfOk result (λ kept. kept ≡ prepare_by facts.now shard tx home listed.now (has_commit facts.now tx)) }
{
    let (keep, left) = if is_committed(facts, tx) {
        (home != shard, Vec::new(alloc))
    } else {
        (is_left_open(facts, tx), uncommitted(alloc, facts, listed)?)
    };
    let prepare = LogRecord::Prepare {
        tx,
        home,
        predecessors: TxList::new(left),
    };
    Ok(kept_if(keep, prepare))
}

fn kept_commit(
    facts: &LogFacts,
    log: &[LogRecord],
    shard: u32,
    tx: TxId,
    parts: &ShardList,
) -> Result<LogRecord, Memory>
    ensures { IfOk result (λ kept. kept ≡ kept_where (some_parts parts.now || home_away facts.now log.now shard tx) (LogRecord.Commit tx parts.now)) }
{
    let keep = !parts.as_slice().is_empty() || is_away(facts, log, shard, tx);
    let parts = parts.clone()?;
    Ok(kept_if(keep, LogRecord::Commit { tx, parts }))
}

// Whether a write stands at the LSN, of one that is not committed.
fn is_open_write(facts: &LogFacts, stands: &LsnSet, lsn: u64, tx: TxId) -> bool
    ensures { result ≡ (not (has_commit facts.now tx) && has_lsn stands.now lsn) }
{
    !is_committed(facts, tx) && stands.contains(lsn)
}

/// What stays of the record at an LSN of the log.
pub fn kept(
    alloc: Global,
    facts: &LogFacts,
    log: &[LogRecord],
    stands: &LsnSet,
    shard: u32,
    lsn: u64,
    r: &LogRecord,
) -> Result<LogRecord, Memory>
    ensures { IfOk result (λ kept. kept ≡ kept_by facts.now log.now (has_lsn stands.now) shard lsn r.now) }
{
    match r {
        LogRecord::Update {
            tx,
            key,
            before,
            after,
        } => Ok(kept_if(
            is_open_write(facts, stands, lsn, *tx),
            LogRecord::Update {
                tx: *tx,
                key: *key,
                before: copy_of(before),
                after: copy_of(after),
            },
        )),
        LogRecord::Add { tx, key, by } => Ok(kept_if(
            is_open_write(facts, stands, lsn, *tx),
            LogRecord::Add {
                tx: *tx,
                key: *key,
                by: *by,
            },
        )),
        LogRecord::Prepare {
            tx,
            home,
            predecessors,
        } => kept_prepare(alloc, facts, shard, *tx, *home, predecessors.as_slice()),
        LogRecord::Commit { tx, parts } => kept_commit(facts, log, shard, *tx, parts),
        LogRecord::Abort { tx } => Ok(kept_if(
            is_left_open(facts, *tx),
            LogRecord::Abort { tx: *tx },
        )),
        LogRecord::End { tx } => Ok(LogRecord::End { tx: *tx }),
        LogRecord::Clr { .. }
        | LogRecord::Unadd { .. }
        | LogRecord::Restart { .. }
        | LogRecord::Forgotten
        | LogRecord::Check { .. } => Ok(LogRecord::Forgotten),
    }
}
