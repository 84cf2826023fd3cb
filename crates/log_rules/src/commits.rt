// Who is committed.

ghost use Rattle.std.specs.Prelude.{◌≡◌, [], map, IfOk, OnOk};
ghost use Rattle.clv_base.specs.LogRules.{committed_of_all};
ghost use Rattle.log_rules.specs.Committed.{with_commit, with_commits, with_all_commits};

use crate::Memory;
use clv_base::logs::LogRecord;
use clv_base::names::TxId;
use log_analysis::TxSet;
use std::alloc::Global;

fn put_commit(set: &mut TxSet, r: &LogRecord) -> Result<(), Memory>
    ensures { OnOk result (set.new ≡ with_commit r.now set.old) }
{
    if let LogRecord::Commit { tx, .. } = r {
        set.insert(*tx)?;
    }
    Ok(())
}

fn put_commits(set: &mut TxSet, log: &[LogRecord]) -> Result<(), Memory>
    ensures { OnOk result (set.new ≡ with_commits log.now set.old) }
{
    for r in log {
        put_commit(set, r)?;
    }
    Ok(())
}

fn all_commits(alloc: Global, logs: &[Vec<LogRecord>]) -> Result<TxSet, Memory>
    ensures { IfOk result (λ set. set ≡ with_all_commits (map (λ l. l.items) logs.now) []) }
{
    let mut set = TxSet::new(alloc);
    for log in logs {
        put_commits(&mut set, log.as_slice())?;
    }
    Ok(set)
}

/// The transactions with a COMMIT in some log, rising.
pub fn committed(alloc: Global, logs: &[Vec<LogRecord>]) -> Result<Vec<TxId>, Memory>
    ensures { IfOk result (λ txs. txs.items ≡ committed_of_all (map (λ l. l.items) logs.now)) }
{
    let set = all_commits(alloc, logs)?;
    set.to_vec(alloc)
}
