// Who is a member.

ghost use Rattle.std.specs.Prelude.{◌≡◌, ◌&&◌, List, ◌∷◌, [], map, is_some, unwrap_or, Some, IfOk};
ghost use Rattle.std.specs.List.{filter, list_all};
ghost use Rattle.clv_base.specs.declared.names.TxId.{TxId as Tx};
ghost use Rattle.clv_base.specs.Orders.{tx_in};
ghost use Rattle.clv_base.specs.Logs.{committed_in, prepare_of, commit_parts};
ghost use Rattle.clv_base.specs.LogRules.{committed_of_all, home_is, log_of};
ghost use Rattle.standby_base.specs.Standby.{whole_with, commits_before, keeps_on, keeps, standby_members};
ghost use Rattle.history_replay.specs.Transactions.{has_member};
ghost use Rattle.standby_maps.specs.Cuts.{commits_another, cut_of, cuts_of, is_in_time};

use crate::Memory;
use clv_base::logs::LogRecord;
use clv_base::names::TxId;
use history_replay::TxSet;
use log_rules::{IndexedLog, committed, facts_of, index_all};
use std::alloc::Global;

// Whether the record is the COMMIT of one that isn't in the set.
fn is_of_another(set: &TxSet, r: &LogRecord) -> bool
    ensures { result ≡ commits_another (has_member set.now) r.now }
{
    match r {
        LogRecord::Commit { tx, .. } => !set.contains(*tx),
        _ => false,
    }
}

// Where the first COMMIT stands of one that isn't in the set, the log's end where there is none.
fn cut(set: &TxSet, log: &[LogRecord]) -> usize
    ensures { result ≡ cut_of (has_member set.now) log.now }
{
    for (place, r) in log.iter().enumerate() {
        if is_of_another(set, r) {
            return place;
        }
    }
    log.len()
}

fn cuts(alloc: Global, set: &TxSet, logs: &[Vec<LogRecord>]) -> Result<Vec<usize>, Memory>
    ensures { IfOk result (λ cuts. cuts.items ≡ cuts_of (has_member set.now) (map (λ l. l.items) logs.now)) }
{
    let mut cuts = Vec::new(alloc);
    for log in logs {
        let place = cut(set, log.as_slice());
        cuts.push(place)?;
    }
    Ok(cuts)
}

// Whether the transaction's COMMIT stands at or before the cut.
fn comes_by(log: &IndexedLog, cut: usize, tx: TxId) -> bool
    ensures { result ≡ is_in_time cut tx log.now }
{
    log.commit_or_end(tx) <= cut
}

// Whether on a shard's stream all that are committed before the transaction are of the set by which the cuts were made.
fn in_time(logs: &[IndexedLog], cuts: &[usize], tx: TxId, shard: usize) -> bool
    ensures { (set : List Tx) → cuts.now ≡ cuts_of (λ t. tx_in t set) logs.now → result ≡ list_all (λ t. tx_in t set) (commits_before tx (log_of logs.now shard)) }
{
    let Some(log) = logs.get(shard) else {
        return true;
    };
    let Some(cut) = cuts.get(shard) else {
        return true;
    };
    comes_by(log, *cut, tx)
}

fn all_in_time(logs: &[IndexedLog], cuts: &[usize], tx: TxId, parts: &[u32]) -> bool
    ensures { (set : List Tx) → cuts.now ≡ cuts_of (λ t. tx_in t set) logs.now → result ≡ keeps_on logs.now set tx (Some parts.now) }
{
    for shard in parts {
        if !in_time(logs, cuts, tx, *shard as usize) {
            return false;
        }
    }
    true
}

fn part_commits(logs: &[IndexedLog], tx: TxId, shard: u32) -> bool
    ensures { result ≡ committed_in (log_of logs.now shard) tx }
{
    match logs.get(shard as usize) {
        None => false,
        Some(log) => log.is_committed(tx),
    }
}

fn parts_commit(logs: &[IndexedLog], tx: TxId, parts: &[u32]) -> bool
    ensures { result ≡ list_all (λ s. committed_in (log_of logs.now s) tx) parts.now }
{
    parts.iter().all(|shard| part_commits(logs, tx, *shard))
}

// Whether the shard may be the home, by its PREPARE, and all parts are committed.
fn agrees(logs: &[IndexedLog], tx: TxId, home: usize, log: &IndexedLog, parts: &[u32]) -> bool
    ensures { result ≡ (home_is home (prepare_of log.now tx) && list_all (λ s. committed_in (log_of logs.now s) tx) parts.now) }
{
    log.allows_home(tx, home) && parts_commit(logs, tx, parts)
}

// Whether the transaction is whole, with this home.
fn is_home(logs: &[IndexedLog], tx: TxId, home: usize, log: &IndexedLog) -> bool
    ensures { result ≡ is_some (whole_with logs.now tx home log.now (commit_parts log.now tx)) }
{
    log.is_committed(tx) && agrees(logs, tx, home, log, log.parts(tx))
}

// Whether all that are committed before the transaction at its home and parts are of the set.
fn is_kept_at(logs: &[IndexedLog], cuts: &[usize], tx: TxId, home: usize, log: &IndexedLog) -> bool
    ensures { (set : List Tx) → cuts.now ≡ cuts_of (λ t. tx_in t set) logs.now → result ≡ keeps_on logs.now set tx (Some (home ∷ unwrap_or (commit_parts log.now tx) [])) }
{
    in_time(logs, cuts, tx, home) && all_in_time(logs, cuts, tx, log.parts(tx))
}

fn is_kept(logs: &[IndexedLog], cuts: &[usize], tx: TxId) -> bool
    ensures { (set : List Tx) → cuts.now ≡ cuts_of (λ t. tx_in t set) logs.now → result ≡ keeps logs.now set tx }
{
    for (home, log) in logs.iter().enumerate() {
        if is_home(logs, tx, home, log) {
            return is_kept_at(logs, cuts, tx, home, log);
        }
    }
    false
}

fn those_kept(
    alloc: Global,
    logs: &[IndexedLog],
    cuts: &[usize],
    txs: &[TxId],
) -> Result<Vec<TxId>, Memory>
    requires { cuts.now ≡ cuts_of (λ t. tx_in t txs.now) logs.now }
    ensures { IfOk result (λ kept. kept.items ≡ filter (keeps logs.now txs.now) txs.now) }
{
    txs.iter()
        .copied()
        .filter(|tx| is_kept(logs, cuts, *tx))
        .collect(alloc)
}

// Those of the transactions that they keep.
fn kept(
    alloc: Global,
    streams: &[Vec<LogRecord>],
    logs: &[IndexedLog],
    txs: &[TxId],
) -> Result<Vec<TxId>, Memory>
    requires { logs.now ≡ map (λ l. l.items) streams.now }
    ensures { IfOk result (λ kept. kept.items ≡ filter (keeps logs.now txs.now) txs.now) }
{
    let set = TxSet::of(alloc, txs)?;
    let cuts = cuts(alloc, &set, streams)?;
    those_kept(alloc, logs, cuts.as_slice(), txs)
}

// The members among these, which are all that are committed: those that go are taken away in rounds.
fn rounds(
    alloc: Global,
    streams: &[Vec<LogRecord>],
    logs: &[IndexedLog],
    all: Vec<TxId>,
) -> Result<Vec<TxId>, Memory>
    requires logs { logs.now ≡ map (λ l. l.items) streams.now }
    requires all { all.items ≡ committed_of_all logs.now }
    ensures { IfOk result (λ txs. txs.items ≡ standby_members logs.now) }
{
    let mut txs = all;
    let count = txs.len();
    for _left in (0..count).rev() {
        let kept = kept(alloc, streams, logs, txs.as_slice())?;
        if kept.len() == txs.len() {
            return Ok(txs);
        }
        txs = kept;
    }
    Ok(txs)
}

/// The members of the streams, the stream of shard i at place i: the greatest set of transactions such that each has a COMMIT on its home's
/// stream and on that of each part that this COMMIT names, and on each of these streams all with an earlier COMMIT are of the set. They rise.
///
/// Who isn't kept goes, again and again, until all are kept: a round takes time linear in the records, times a logarithm, and there are more than a few
/// only where COMMITs of one stream depend in turn on those of another, again and again.
pub fn members(alloc: Global, streams: &[Vec<LogRecord>]) -> Result<Vec<TxId>, Memory>
    ensures { IfOk result (λ txs. txs.items ≡ standby_members (map (λ l. l.items) streams.now)) }
{
    let facts = facts_of(alloc, streams)?;
    let logs = index_all(alloc, streams, facts.as_slice())?;
    let all = committed(alloc, streams)?;
    rounds(alloc, streams, logs.as_slice(), all)
}
