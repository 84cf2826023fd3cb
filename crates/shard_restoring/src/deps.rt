//! The dependencies of those in doubt, and the COMMITs of the log.
ghost use Rattle.std.specs.Prelude.{◌≡◌, ◌≤◌, ◌<◌, ◌+◌, [], None, true, IfOk, OnOk, if◌then◌else◌};
ghost use Rattle.std.specs.List.Sorted.{IsStrictlySortedBy};
ghost use Rattle.clv_base.specs.declared.names.TxId.{TxId as Tx};
ghost use Rattle.clv_base.specs.OneShard.{add_pairs};
ghost use Rattle.clv_base.specs.Orders.{tx_get, pair_cmp};
ghost use Rattle.txn_core.specs.State.{AreSettled};
ghost use Rattle.shard_restoring.specs.Opened.{first_of, place_if, is_commit as commits, commits_in};
ghost use Rattle.clv_base.specs.Logs.{is_commit_of};

use cascade_undo::Deps;
use clv_base::logs::LogRecord;
use clv_base::names::TxId;
use std::alloc::{AllocError, Global};

/// The transaction is a successor of these.
fn add(deps: &mut Deps, tx: TxId, preds: &[TxId]) -> Result<(), AllocError>
    ensures pairs { OnOk result (deps.new.pairs ≡ add_pairs tx preds.now deps.old.pairs) }
    ensures commits { deps.new.commits ≡ deps.old.commits }
{
    deps.reserve_pairs(tx, preds)?;
    deps.follow(tx, preds);
    Ok(())
}

/// The pairs, which rise, are added where there are none.
fn add_all(deps: &mut Deps, pairs: &[(TxId, TxId)]) -> Result<(), AllocError>
    requires rising { IsStrictlySortedBy pair_cmp pairs.now }
    requires empty { deps.old.pairs ≡ [] }
    ensures pairs { OnOk result (deps.new.pairs ≡ pairs.now) }
    ensures commits { deps.new.commits ≡ deps.old.commits }
{
    for pair in pairs {
        add(deps, pair.0, &[pair.1])?;
    }
    Ok(())
}

fn is_commit(found: &LogRecord) -> bool
    ensures { result ≡ commits found.now }
{
    match found {
        LogRecord::Commit { .. } => true,
        _ => false,
    }
}

/// How many COMMITs the log has.
fn count_commits(log: &[LogRecord]) -> usize
    ensures { result ≡ commits_in log.now }
{
    log.iter().filter(|found| is_commit(found)).count()
}

/// The transaction of a COMMIT is settled at its LSN, unless it was before. Takes no memory.
fn note_commit(deps: &mut Deps, lsn: usize, found: &LogRecord)
    requires { commits found.now ≡ true → 0 < deps.old.settled_room }
    ensures commits { (t : Tx) → tx_get t deps.new.commits ≡ first_of (tx_get t deps.old.commits) (place_if (is_commit_of t found.now) lsn) }
    ensures pairs { deps.new.pairs ≡ deps.old.pairs }
    ensures room { deps.old.settled_room ≤ deps.new.settled_room + (if commits found.now then 1 else 0) }
{
    if let LogRecord::Commit { tx, .. } = found {
        if deps.settled_at(*tx).is_none() {
            deps.settle_found(*tx, lsn as u64);
        }
    }
}

/// Each transaction with a COMMIT in the log is settled at its first one's LSN. Takes no memory.
fn note_commits(deps: &mut Deps, log: &[LogRecord])
    requires none { (t : Tx) → tx_get t deps.old.commits ≡ None }
    requires room { commits_in log.now ≤ deps.old.settled_room }
    ensures settled { AreSettled deps.new.commits log.now }
    ensures pairs { deps.new.pairs ≡ deps.old.pairs }
{
    for (lsn, found) in log.iter().enumerate() {
        note_commit(deps, lsn, found);
    }
}

/// The dependencies with these pairs, which rise, and the COMMITs of the log.
pub(crate) fn deps_of(
    alloc: Global,
    pairs: &[(TxId, TxId)],
    log: &[LogRecord],
) -> Result<Deps, AllocError>
    requires rising { IsStrictlySortedBy pair_cmp pairs.now }
    ensures pairs { IfOk result (λ d. d.pairs ≡ pairs.now) }
    ensures settled { IfOk result (λ d. AreSettled d.commits log.now) }
{
    let mut deps = Deps::new(alloc)?;
    add_all(&mut deps, pairs)?;
    deps.reserve_settled(count_commits(log))?;
    note_commits(&mut deps, log);
    Ok(deps)
}
