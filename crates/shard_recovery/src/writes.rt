//! What those that win in a log wrote, of what stands, in the order that a store takes it in.
ghost use Rattle.std.specs.Prelude.{◌≡◌, ◌++◌, List, [], Some, map, IfOk};
ghost use Rattle.std.specs.List.Sorted.{IsNonDecreasingBy};
ghost use Rattle.clv_base.specs.Logs.{fold_updates, standing};
ghost use Rattle.clv_base.specs.declared.logs.LogRecord.{LogRecord as Record};
ghost use Rattle.log_analysis.specs.Facts.{Knows};
ghost use Rattle.log_analysis.specs.Lists.{pairs_at as pairs_in};
ghost use Rattle.shard_recovery.specs.Winning.{wins_in, begun, set_by, kept_write, kept_writes, writes_after};

use clv_base::logs::LogRecord;
use clv_base::names::TxId;
use clv_base::texts::ByteText;
use clv_base::values::Value;
use log_analysis::lists::pairs_at;
use log_analysis::{LogFacts, TxSet, standing_lsns};
use std::alloc::{AllocError, Global};

/// What a write leaves at its key: no value, this one, or that which is there with a number added.
#[derive(Drop)]
pub(crate) enum Left {
    Nothing,
    Num(u64),
    Bytes(ByteText),
    More(u64),
}

/// An UPDATE or ADD: its key, and what it leaves there.
#[derive(Drop)]
pub(crate) struct Write {
    pub key: u64,
    pub left: Left,
}

/// What an UPDATE leaves.
fn left_by(after: &Option<Value>) -> Left
    ensures { result ≡ set_by after.now }
{
    match after {
        None => Left::Nothing,
        Some(Value::Num(number)) => Left::Num(*number),
        Some(Value::Bytes(text)) => Left::Bytes(text.copy()),
    }
}

/// Whether the transaction is committed in the log that is known, or one of those in doubt.
fn wins(facts: &LogFacts, doubtful: &TxSet, tx: TxId) -> bool
    ensures { (log : List Record) → Knows facts.now log → result ≡ wins_in log doubtful.now tx }
{
    facts.get(tx).commit.is_some() || doubtful.contains(tx)
}

/// What an UPDATE or ADD of a winner wrote.
fn written(facts: &LogFacts, doubtful: &TxSet, found: &LogRecord) -> Option<Write>
    ensures { (log : List Record) → Knows facts.now log → result ≡ kept_write (wins_in log doubtful.now) found.now }
{
    match found {
        LogRecord::Update { tx, key, after, .. } => {
            if wins(facts, doubtful, *tx) {
                return Some(Write {
                    key: *key,
                    left: left_by(after),
                });
            }
            None
        }
        LogRecord::Add { tx, key, by } => {
            if wins(facts, doubtful, *tx) {
                return Some(Write {
                    key: *key,
                    left: Left::More(*by),
                });
            }
            None
        }
        _ => None,
    }
}

/// What leaves these pairs, the first one last: of two with one key it counts.
fn begin(alloc: Global, base: &[(u64, Value)]) -> Result<Vec<Write>, AllocError>
    ensures { IfOk result (λ ws. ws.items ≡ begun base.now) }
{
    let mut writes = Vec::new(alloc);
    for place in (0..base.len()).rev() {
        let pair = &base[place];
        writes.push(Write {
            key: pair.0,
            left: left_by(&Some(pair.1.copy())),
        })?;
    }
    Ok(writes)
}

/// These, and behind them what the winners wrote of what stands at these LSNs, the newest first, in the log's order.
fn gather_at(
    first: Vec<Write>,
    facts: &LogFacts,
    doubtful: &TxSet,
    log: &[LogRecord],
    lsns: &[u64],
) -> Result<Vec<Write>, AllocError>
    requires knows { Knows facts.now log.now }
    requires stand { lsns.now ≡ map (λ w. w.lsn) (standing log.now) }
    ensures { IfOk result (λ ws. ws.items ≡ first.items ++ kept_writes (wins_in log.now doubtful.now) (standing log.now)) }
{
    let mut writes = first;
    for place in (0..lsns.len()).rev() {
        if let Some(write) = written(facts, doubtful, &log[lsns[place] as usize]) {
            writes.push(write)?;
        }
    }
    Ok(writes)
}

/// What leaves the map that the log begins with, and what the winners wrote and stands, in the log's order. What its transaction took back is not done first and undone then: between the two an
/// in-doubt one's value may have come and gone that a later abort takes away.
fn gather(
    alloc: Global,
    facts: &LogFacts,
    doubtful: &TxSet,
    log: &[LogRecord],
) -> Result<Vec<Write>, AllocError>
    requires knows { Knows facts.now log.now }
    ensures { IfOk result (λ ws. ws.items ≡ begun (pairs_in log.now (Some 0)) ++ kept_writes (wins_in log.now doubtful.now) (standing log.now)) }
{
    let lsns = standing_lsns(alloc, log)?;
    let first = begin(alloc, pairs_at(log, Some(0)))?;
    gather_at(first, facts, doubtful, log, &lsns)
}

/// The same by rising keys, as a store takes it fastest, and in the log's order at each key: it leaves the same map. A log whose keys rise is in
/// this order already, and costs one look at each.
pub(crate) fn by_key(
    alloc: Global,
    facts: &LogFacts,
    doubtful: &TxSet,
    log: &[LogRecord],
) -> Result<Vec<Write>, AllocError>
    requires knows { Knows facts.now log.now }
    ensures rising { IfOk result (λ ws. IsNonDecreasingBy (λ w. w.key) ws.items) }
    ensures map { IfOk result (λ ws. writes_after ws.items [] ≡ fold_updates (wins_in log.now doubtful.now) log.now []) }
{
    let mut writes = gather(alloc, facts, doubtful, log)?;
    writes.sort_by_key(|write| write.key)?;
    Ok(writes)
}
