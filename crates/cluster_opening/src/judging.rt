// All logs together.

ghost use Rattle.std.specs.Prelude.{◌≡◌, ◌<◌, ◌^◌, None, map, IfOk, OnOk, IfErr, MatchOption};
ghost use Rattle.clv_base.specs.LogRules.{apart as first_apart};
ghost use Rattle.clv_base.specs.Restarts.{greatest_run, run_after};
ghost use Rattle.log_analysis.specs.Facts.{KnowAll};
ghost use Rattle.cluster_opening.specs.Judging.{FaultsOfAll};
ghost use Rattle.cluster_opening.specs.Opening.{IsNotWorn};

use crate::error::OpenError;
use clv_base::logs::LogRecord;
use log_analysis::LogFacts;
use log_rules::apart_by;
use std::alloc::Global;

// Runs end below it.
const RUNS_END: u64 = 1 << 32;

// The greatest run of a RESTART or a checkpoint, or 0 where there is none.
fn greatest(log: &[LogRecord]) -> u32
    ensures { result ≡ greatest_run log.now }
{
    let mut most = 0;
    for record in log {
        if let LogRecord::Restart { run, .. } | LogRecord::Check { run, .. } = record {
            most = most.max(*run);
        }
    }
    most
}

// The next run; none where it would be 2^32.
fn next_run(logs: &[Vec<LogRecord>]) -> Option<u32>
    ensures { MatchOption result (run_after (map (λ l. l.items) logs.now) ≡ 2 ^ 32) (λ run. run ≡ run_after (map (λ l. l.items) logs.now)) }
{
    let mut most = 0;
    for log in logs {
        most = most.max(greatest(log));
    }
    most.checked_add(1)
}

// Whether the logs agree, by what each says of each transaction; or why they are refused.
pub(crate) fn agree(
    alloc: Global,
    logs: &[Vec<LogRecord>],
    facts: &[LogFacts],
) -> Result<(), OpenError>
    requires { KnowAll facts.now (map (λ l. l.items) logs.now) }
    ensures agree { OnOk result (first_apart (map (λ l. l.items) logs.now) ≡ None) }
    ensures fault { IfErr result (FaultsOfAll (map (λ l. l.items) logs.now)) }
    ensures unworn { IfErr result IsNotWorn }
{
    match apart_by(alloc, logs, facts)? {
        Some(tx) => Err(OpenError::Apart { tx }),
        None => Ok(()),
    }
}

// The next run, where the logs agree; or why there is none.
pub(crate) fn judge_all(
    alloc: Global,
    logs: &[Vec<LogRecord>],
    facts: &[LogFacts],
) -> Result<u32, OpenError>
    requires { KnowAll facts.now (map (λ l. l.items) logs.now) }
    ensures run { IfOk result (λ run. (run ≡ run_after (map (λ l. l.items) logs.now)) × (run < 2 ^ 32)) }
    ensures agree { IfOk result (λ run. first_apart (map (λ l. l.items) logs.now) ≡ None) }
    ensures fault { IfErr result (FaultsOfAll (map (λ l. l.items) logs.now)) }
{
    match agree(alloc, logs, facts) {
        Ok(()) => match next_run(logs) {
            Some(run) => Ok(run),
            None => Err(OpenError::Worn { at: RUNS_END }),
        },
        Err(error) => Err(error),
    }
}
