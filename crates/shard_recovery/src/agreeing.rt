// How far two lists of records agree.
ghost use Rattle.std.specs.Prelude.{◌≡◌, ◌≤◌, ◌+◌, ◌++◌, ◌&&◌, ◌==◌, nat_lt, ◌-◌, suc, length};
ghost use Rattle.std.specs.List.{common_prefix_len};
ghost use Rattle.clv_base.specs.LogRules.{same_record as same};
ghost use Rattle.clv_base.specs.Restarts.{restarts_up};
ghost use Rattle.clv_base.specs.declared.logs.LogRecord.TheVariants.{Restart};

use crate::records::same_record;
use clv_base::logs::LogRecord;

/// How many records of two logs agree, from the first on.
pub(crate) fn agreed(a: &[LogRecord], b: &[LogRecord]) -> usize
    ensures agreed { result ≡ common_prefix_len same a.now b.now }
    ensures within { (result ≤ length a.now) × (result ≤ length b.now) }
{
    let both = a.len().min(b.len());
    for i in 0..both {
        if !same_record(&a[i], &b[i]) {
            return i;
        }
    }
    both
}

/// Whether it is the RESTART of this run and epoch.
fn is_restart(found: &LogRecord, run: u32, epoch: u64) -> bool
    ensures { result ≡ same found.now (Restart run epoch) }
{
    match found {
        LogRecord::Restart {
            run: other,
            epoch: at,
        } => *other == run && *at == epoch,
        _ => false,
    }
}

/// How many of the records agree, from the first on, with RESTARTs of a run, one for each epoch behind `before` up to `last`.
pub(crate) fn restarts_agreed(found: &[LogRecord], run: u32, before: u64, last: u64) -> usize
    ensures agreed { result ≡ common_prefix_len same found.now (restarts_up run (suc before) (last - before)) }
    ensures within { result ≤ length found.now }
{
    let mut epoch = before;
    for i in 0..found.len() {
        if epoch >= last || !is_restart(&found[i], run, epoch + 1) {
            return i;
        }
        epoch += 1;
    }
    found.len()
}

/// How many records of a log agree, from the first on, with these and then RESTARTs of a run, one for each epoch behind `before` up to `last`.
pub(crate) fn agreed_up_to(
    log: &[LogRecord],
    undone: &[LogRecord],
    run: u32,
    before: u64,
    last: u64,
) -> usize
    ensures { result ≡ common_prefix_len same log.now (undone.now ++ restarts_up run (suc before) (last - before)) }
{
    let front = agreed(log, undone);
    if front < undone.len() {
        return front;
    }
    front + restarts_agreed(&log[front..], run, before, last)
}

/// Whether a log that agrees so far is as long as it must be: the records before the RESTARTs, and one of these for each epoch.
pub(crate) fn is_whole(upto: usize, log: usize, undone: usize, before: u64, last: u64) -> bool
    ensures { result ≡ (nat_lt before last && (upto == log) && (log == undone + (last - before))) }
{
    before < last && upto == log && log >= undone && (log - undone) as u64 == last - before
}
