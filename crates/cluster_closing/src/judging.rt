// Whether a restart may go on from a log.
ghost use Rattle.std.specs.Prelude.{◌≡◌, ◌∷◌, ℕ, suc, None, List, IfOk, IfErr, OnOk};
ghost use Rattle.clv_base.specs.declared.logs.LogRecord.{LogRecord as RecordIs};
ghost use Rattle.clv_base.specs.LogRules.{upto_of, disorder as first_disorder};
ghost use Rattle.clv_base.specs.Restarts.{bars_restart, first_barred as barred_in, greatest_epoch};
ghost use Rattle.log_analysis.specs.Facts.{Knows};
ghost use Rattle.cluster_closing.specs.Judging.{Bars};

use crate::error::RestartError;
use cluster_opening::At;
use clv_base::logs::LogRecord;
use log_analysis::LogFacts;
use log_rules::{OrderError, in_order};
use std::alloc::Global;

// Epochs of a log from which a restart goes on are below it.
const EPOCHS_END: u64 = 1 << 63;

fn is_barred(run: u32, found: &LogRecord) -> bool
    ensures { result ≡ bars_restart run found.now }
{
    match found {
        LogRecord::Restart { run: other, epoch }
        | LogRecord::Check {
            run: other,
            epoch,
            ..
        } => { run < *other || (*other == run && EPOCHS_END <= *epoch) }
        _ => false,
    }
}

// The first RESTART of a later run, or of this run with too great an epoch.
fn first_barred(run: u32, log: &[LogRecord]) -> Option<u64>
    ensures { result ≡ barred_in run log.now }
{
    for lsn in 0..log.len() {
        if is_barred(run, &log[lsn]) {
            return Some(lsn as u64);
        }
    }
    None
}

// The greater of an epoch and that of a RESTART of this run, or of a checkpoint of it.
fn later(run: u32, so_far: u64, found: &LogRecord) -> u64
    ensures { (rest : List RecordIs) → greatest_epoch run so_far (found.now ∷ rest) ≡ greatest_epoch run result rest }
{
    match found {
        LogRecord::Restart { run: other, epoch }
        | LogRecord::Check {
            run: other,
            epoch,
            ..
        } if *other == run => so_far.max(*epoch),
        _ => so_far,
    }
}

// The greatest epoch of the run in a log, and the shard's own.
fn greatest(run: u32, own: u64, log: &[LogRecord]) -> u64
    ensures { result ≡ greatest_epoch run own log.now }
{
    let mut so_far = own;
    for found in log {
        so_far = later(run, so_far, found);
    }
    so_far
}

// What a log without a checkpoint that is in order says of each transaction.
fn facts_of(alloc: Global, log: &[LogRecord], shard: u32) -> Result<LogFacts, RestartError>
    requires plain { upto_of log.now ≡ 0 }
    ensures in_order { OnOk result (first_disorder shard log.now ≡ None) }
    ensures knows { IfOk result (λ facts. Knows facts log.now) }
    ensures fault { IfErr result (λ error. (run own : ℕ) → Bars shard run own log.now error) }
{
    match in_order(alloc, log, shard) {
        Ok(facts) => Ok(facts),
        Err(OrderError::Breaks(lsn)) => {
            let at = At::Record(lsn);
            Err(RestartError::NotLog { at })
        }
        Err(OrderError::Memory) => Err(RestartError::Memory),
    }
}

// The epoch of the next restart of a shard whose own this is, where its log is in order and doesn't bar it, and what the log says of each transaction.
pub(crate) fn judge(
    alloc: Global,
    log: &[LogRecord],
    shard: u32,
    run: u32,
    own: u64,
) -> Result<(u64, LogFacts), RestartError>
    requires plain { upto_of log.now ≡ 0 }
    ensures epoch { IfOk result (λ r. r.0 ≡ suc (greatest_epoch run own log.now)) }
    ensures knows { IfOk result (λ r. Knows r.1 log.now) }
    ensures in_order { OnOk result (first_disorder shard log.now ≡ None) }
    ensures free { OnOk result (barred_in run log.now ≡ None) }
    ensures fault { IfErr result (Bars shard run own log.now) }
{
    let facts = match facts_of(alloc, log, shard) {
        Ok(facts) => facts,
        Err(error) => return Err(error),
    };
    if let Some(lsn) = first_barred(run, log) {
        let at = At::Record(lsn);
        return Err(RestartError::NotLog { at });
    }
    match greatest(run, own, log).checked_add(1) {
        Some(epoch) => Ok((epoch, facts)),
        None => {
            let at = At::Record(log.len() as u64);
            Err(RestartError::NotLog { at })
        }
    }
}
