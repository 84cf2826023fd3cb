// Whether logs agree.

ghost use Rattle.std.specs.Prelude.{◌≡◌, ◌<◌, map, length, slice_get, Some, None, IfOk};
ghost use Rattle.std.specs.List.{list_all};
ghost use Rattle.clv_base.specs.Orders.{nat_in};
ghost use Rattle.clv_base.specs.LogRules.{all_logs_from, any_log_from, agrees_at, is_home_of, first_apart, apart as apart_in};
ghost use Rattle.log_analysis.specs.Facts.{KnowAll};
ghost use Rattle.log_rules.specs.Agreement.{is_part_or_undone, agrees_on, commits_on};

use crate::Memory;
use crate::commits::committed;
use crate::indexed::IndexedLog;
use clv_base::logs::LogRecord;
use clv_base::names::TxId;
use log_analysis::LogFacts;
use std::alloc::Global;

/// What each log says of each transaction.
pub fn facts_of(alloc: Global, logs: &[Vec<LogRecord>]) -> Result<Vec<LogFacts>, Memory>
    ensures { IfOk result (λ facts. KnowAll facts.items (map (λ l. l.items) logs.now)) }
{
    let mut facts = Vec::new(alloc);
    for log in logs {
        let known = LogFacts::of_log(alloc, log.as_slice())?;
        facts.push(known)?;
    }
    Ok(facts)
}

/// Each log with what it says.
pub fn index_all<'a>(
    alloc: Global,
    logs: &'a [Vec<LogRecord>],
    facts: &'a [LogFacts],
) -> Result<Vec<IndexedLog<'a>>, Memory>
    requires { KnowAll facts.now (map (λ l. l.items) logs.now) }
    ensures { IfOk result (λ indexed. indexed.items ≡ map (λ l. l.items) logs.now) }
{
    let mut indexed = Vec::new(alloc);
    for at in 0..logs.len() {
        let known = IndexedLog::new(logs[at].as_slice(), &facts[at]);
        indexed.push(known)?;
    }
    Ok(indexed)
}

fn is_among(shard: usize, parts: &[u32]) -> bool
    ensures { result ≡ nat_in shard parts.now }
{
    parts.iter().any(|part| shard == *part as usize)
}

fn allows(other: &IndexedLog, tx: TxId, home: usize, parts: &[u32], shard: usize) -> bool
    ensures { result ≡ is_part_or_undone tx home parts.now shard other.now }
{
    shard == home || is_among(shard, parts) || other.is_undone(tx)
}

// Whether all other logs are those of parts, or have undone what they have of the transaction.
fn others_are_parts(logs: &[IndexedLog], tx: TxId, home: usize, parts: &[u32]) -> bool
    ensures { result ≡ all_logs_from 0 (is_part_or_undone tx home parts.now) logs.now }
{
    for (shard, other) in logs.iter().enumerate() {
        if !allows(other, tx, home, parts, shard) {
            return false;
        }
    }
    true
}

fn part_agrees(logs: &[IndexedLog], tx: TxId, home: usize, shard: u32) -> bool
    ensures { result ≡ agrees_on logs.now tx home shard }
{
    match logs.get(shard as usize) {
        None => false,
        Some(log) => log.agrees(tx, home),
    }
}

fn part_commits(logs: &[IndexedLog], tx: TxId, shard: u32) -> bool
    ensures { result ≡ commits_on logs.now tx shard }
{
    match logs.get(shard as usize) {
        None => false,
        Some(log) => log.is_committed(tx),
    }
}

fn parts_agree(logs: &[IndexedLog], tx: TxId, home: usize, parts: &[u32]) -> bool
    ensures { result ≡ list_all (agrees_on logs.now tx home) parts.now }
{
    parts
        .iter()
        .all(|shard| part_agrees(logs, tx, home, *shard))
}

fn parts_commit(logs: &[IndexedLog], tx: TxId, parts: &[u32]) -> bool
    ensures { result ≡ list_all (commits_on logs.now tx) parts.now }
{
    parts.iter().all(|shard| part_commits(logs, tx, *shard))
}

fn agrees(logs: &[IndexedLog], tx: TxId, home: usize, log: &IndexedLog, parts: &[u32]) -> bool
    ensures { result ≡ agrees_at logs.now tx home log.now parts.now }
{
    log.allows_home(tx, home)
        && others_are_parts(logs, tx, home, parts)
        && parts_agree(logs, tx, home, parts)
        && (!log.is_ended(tx) || parts_commit(logs, tx, parts))
}

fn is_its_home(logs: &[IndexedLog], tx: TxId, home: usize, log: &IndexedLog) -> bool
    ensures { result ≡ is_home_of logs.now tx home log.now }
{
    log.is_committed(tx) && agrees(logs, tx, home, log, log.parts(tx))
}

// Whether some shard is the transaction's home.
fn has_home(logs: &[IndexedLog], tx: TxId) -> bool
    ensures { result ≡ any_log_from 0 (is_home_of logs.now tx) logs.now }
{
    for (home, log) in logs.iter().enumerate() {
        if is_its_home(logs, tx, home, log) {
            return true;
        }
    }
    false
}

fn first_homeless(logs: &[IndexedLog], txs: &[TxId]) -> Option<TxId>
    ensures { result ≡ first_apart logs.now txs.now }
{
    for tx in txs {
        if !has_home(logs, *tx) {
            return Some(*tx);
        }
    }
    None
}

/// The least transaction on which the logs disagree, the log of shard i at place i, by what each says of each transaction; none
/// where they agree. They agree on a transaction that has a COMMIT where one shard is its home: its log has the COMMIT, and no
/// PREPARE for another home; each other log with a record of it is that of a part of this COMMIT, or has writes of it that are all
/// compensated, with their CLRs and UNADDs, and nothing else; each part's log has a PREPARE for this home, no ABORT, and the COMMITs of the
/// predecessors that it lists; and where the home's log has an END, each part's log has a COMMIT.
///
/// `Memory` comes for want of memory alone. Takes time linear in the records and in what their PREPAREs list, times a
/// logarithm and the number of logs.
pub fn apart_by(
    alloc: Global,
    logs: &[Vec<LogRecord>],
    facts: &[LogFacts],
) -> Result<Option<TxId>, Memory>
    requires { KnowAll facts.now (map (λ l. l.items) logs.now) }
    ensures { IfOk result (λ tx. tx ≡ apart_in (map (λ l. l.items) logs.now)) }
{
    let txs = committed(alloc, logs)?;
    let indexed = index_all(alloc, logs, facts)?;
    Ok(first_homeless(indexed.as_slice(), txs.as_slice()))
}

/// The same of logs of which nothing is known yet.
pub fn apart(alloc: Global, logs: &[Vec<LogRecord>]) -> Result<Option<TxId>, Memory>
    ensures { IfOk result (λ tx. tx ≡ apart_in (map (λ l. l.items) logs.now)) }
{
    let facts = facts_of(alloc, logs)?;
    apart_by(alloc, logs, &facts)
}
