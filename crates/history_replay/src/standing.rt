// What logs stand for.

ghost use Rattle.std.specs.Prelude.{◌≡◌, ◌||◌, map, IfOk, OnOk};
ghost use Rattle.clv_base.specs.declared.names.TxId.{TxId as Tx};
ghost use Rattle.clv_base.specs.Maps.{with_pairs};
ghost use Rattle.clv_base.specs.Logs.{committed_in, committed_somewhere, fold_updates, fold_writes, standing, stands_from, stands as stands_for};
ghost use Rattle.history_replay.specs.Folds.{with_record};
ghost use Rattle.history_replay.specs.Transactions.{has_member};

use crate::transactions::TxSet;
use crate::{KeyMap, Memory};
use clv_base::logs::LogRecord;
use clv_base::values::{Value, copy_of};
use log_analysis::lists::pairs_at;
use log_analysis::standing_lsns;
use std::alloc::Global;

// The transactions with a COMMIT in this log join the set.
fn add_committed(set: &mut TxSet, log: &[LogRecord]) -> Result<(), Memory>
    ensures { OnOk result ((t : Tx) → has_member set.new t ≡ (has_member set.old t || committed_in log.now t)) }
{
    for record in log {
        if let LogRecord::Commit { tx, .. } = record {
            set.insert(*tx)?;
        }
    }
    Ok(())
}

// The transactions with a COMMIT in some log.
fn committed(alloc: Global, logs: &[Vec<LogRecord>]) -> Result<TxSet, Memory>
    ensures { IfOk result (λ set. (t : Tx) → has_member set t ≡ committed_somewhere (map (λ l. l.items) logs.now) t) }
{
    let mut set = TxSet::new(alloc);
    for log in logs {
        add_committed(&mut set, log)?;
    }
    Ok(set)
}

// A record that is an UPDATE or ADD of a transaction of the set is done.
fn fold_one(pairs: &mut KeyMap, set: &TxSet, record: &LogRecord) -> Result<(), Memory>
    ensures { OnOk result (pairs.new ≡ with_record (has_member set.now) record.now pairs.old) }
{
    match record {
        LogRecord::Update { tx, key, after, .. } => {
            if set.contains(*tx) {
                pairs.set_to(*key, copy_of(after))?;
            }
        }
        LogRecord::Add { tx, key, by } => {
            if set.contains(*tx) {
                pairs.add(*key, *by)?;
            }
        }
        _ => {}
    }
    Ok(())
}

// The pairs are put, the first one last: of two with one key it counts.
fn put_pairs(pairs: &mut KeyMap, base: &[(u64, Value)]) -> Result<(), Memory>
    ensures { OnOk result (pairs.new ≡ with_pairs base.now pairs.old) }
{
    for place in (0..base.len()).rev() {
        let pair = &base[place];
        pairs.set_to(pair.0, Some(pair.1.copy()))?;
    }
    Ok(())
}

// The records at these LSNs, those that stand, are done, the last LSN first.
fn fold_lsns(pairs: &mut KeyMap, set: &TxSet, log: &[LogRecord], lsns: &[u64]) -> Result<(), Memory>
    requires { lsns.now ≡ map (λ w. w.lsn) (standing log.now) }
    ensures { OnOk result (pairs.new ≡ fold_writes (has_member set.now) (standing log.now) pairs.old) }
{
    for place in (0..lsns.len()).rev() {
        fold_one(pairs, set, &log[lsns[place] as usize])?;
    }
    Ok(())
}

/// The pairs that the log begins with are put into the map; then each UPDATE and ADD that stands and is of a transaction of the set is done, in the log's
/// order.
#[tactic(auto, using(crate::proofs::Folding::begun))]
pub fn fold(alloc: Global, pairs: &mut KeyMap, set: &TxSet, log: &[LogRecord]) -> Result<(), Memory>
    ensures { OnOk result (pairs.new ≡ fold_updates (has_member set.now) log.now pairs.old) }
{
    put_pairs(pairs, pairs_at(log, Some(0)))?;
    let lsns = standing_lsns(alloc, log)?;
    fold_lsns(pairs, set, log, &lsns)
}

fn fold_all(
    alloc: Global,
    pairs: &mut KeyMap,
    set: &TxSet,
    logs: &[Vec<LogRecord>],
) -> Result<(), Memory>
    ensures { OnOk result (pairs.new ≡ stands_from (has_member set.now) (map (λ l. l.items) logs.now) pairs.old) }
{
    for log in logs {
        fold(alloc, pairs, set, log)?;
    }
    Ok(())
}

/// The map that a set of logs stands for: from the empty map, log by log, what the log begins with, and in order of LSN, each UPDATE that stands and is of a transaction that
/// has a COMMIT in some of the logs sets its key to the value after, and each such ADD adds to the number at its key. Each record takes time
/// logarithmic in the records.
pub fn stands(alloc: Global, logs: &[Vec<LogRecord>]) -> Result<KeyMap, Memory>
    ensures { IfOk result (λ pairs. pairs ≡ stands_for (map (λ l. l.items) logs.now)) }
{
    let set = committed(alloc, logs)?;
    let mut pairs = KeyMap::new(alloc);
    fold_all(alloc, &mut pairs, &set, logs)?;
    Ok(pairs)
}
