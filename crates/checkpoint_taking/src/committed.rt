// The map of those committed in a log, and its last RESTART.

ghost use Rattle.std.specs.Prelude.{◌≡◌, ◌||◌, IfOk, OnOk};
ghost use Rattle.clv_base.specs.declared.names.TxId.{TxId as Tx};
ghost use Rattle.clv_base.specs.Folding.{IsRising};
ghost use Rattle.clv_base.specs.Logs.{base_of, committed_in, is_commit_of};
ghost use Rattle.clv_base.specs.LogRules.{last_restart as last_restart_in};
ghost use Rattle.clv_base.specs.Checkpoints.{committed_map, no_restart};
ghost use Rattle.history_replay.specs.Transactions.{has_member};

use crate::Memory;
use clv_base::logs::LogRecord;
use clv_base::values::Value;
use history_replay::{KeyMap, TxSet, fold};
use std::alloc::Global;

// The transaction of a COMMIT joins.
fn put_commit(set: &mut TxSet, r: &LogRecord) -> Result<(), Memory>
    ensures { OnOk result ((t : Tx) → has_member set.new t ≡ (has_member set.old t || is_commit_of t r.now)) }
{
    if let LogRecord::Commit { tx, .. } = r {
        set.insert(*tx)?;
    }
    Ok(())
}

fn committed(alloc: Global, log: &[LogRecord]) -> Result<TxSet, Memory>
    ensures { IfOk result (λ set. (t : Tx) → has_member set t ≡ committed_in log.now t) }
{
    let mut set = TxSet::new(alloc);
    for r in log {
        put_commit(&mut set, r)?;
    }
    Ok(set)
}

/// The pairs of the map of those committed: what the log begins with, and their writes that stand.
pub fn committed_pairs(alloc: Global, log: &[LogRecord]) -> Result<Vec<(u64, Value)>, Memory>
    requires { IsRising (base_of log.now) }
    ensures { IfOk result (λ pairs. pairs.items ≡ committed_map log.now) }
{
    let set = committed(alloc, log)?;
    let mut pairs = KeyMap::new(alloc);
    fold(alloc, &mut pairs, &set, log)?;
    pairs.pairs(alloc)
}

/// Run and epoch of the last RESTART, also of one that a checkpoint stands for; 0 and 0 where there is none.
pub fn last_restart(log: &[LogRecord]) -> (u32, u64)
    ensures { result ≡ no_restart (last_restart_in log.now) }
{
    let mut found = (0, 0);
    for r in log {
        if let LogRecord::Restart { run, epoch } | LogRecord::Check { run, epoch, .. } = r {
            found = (*run, *epoch);
        }
    }
    found
}
