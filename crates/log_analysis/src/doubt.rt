// Who is in doubt.

ghost use Rattle.std.specs.Prelude.{◌≡◌, ◌||◌, ◌++◌, [], map, IfOk, OnOk};
ghost use Rattle.std.specs.List.{list_all};
ghost use Rattle.clv_base.specs.Orders.{tx_in};
ghost use Rattle.clv_base.specs.Logs.{in_doubt};
ghost use Rattle.clv_base.specs.Restarts.{homes_of, restored_pairs};
ghost use Rattle.log_analysis.specs.Facts.{Knows};
ghost use Rattle.log_analysis.specs.Doubt.{has_commit, settles, is_doubted, with_doubted, doubted_from, home_in, pairs_by, pairs_from};

use crate::lists::{home_at, listed_at};
use crate::{LogFacts, Memory, TxSet};
use clv_base::logs::LogRecord;
use clv_base::names::TxId;
use std::alloc::Global;

pub fn is_committed(facts: &LogFacts, tx: TxId) -> bool
    ensures { result ≡ has_commit facts.now tx }
{
    facts.get(tx).commit.is_some()
}

// Whether each of these is committed or in doubt so far.
fn are_settled(facts: &LogFacts, so_far: &TxSet, listed: &[TxId]) -> bool
    ensures { result ≡ list_all (settles facts.now so_far.now) listed.now }
{
    listed
        .iter()
        .all(|p| is_committed(facts, *p) || so_far.contains(*p))
}

fn is_in_doubt(
    facts: &LogFacts,
    shard: u32,
    tx: TxId,
    home: u32,
    listed: &[TxId],
    so_far: &TxSet,
) -> bool
    ensures { result ≡ is_doubted facts.now shard tx home listed.now so_far.now }
{
    shard != home
        && !is_committed(facts, tx)
        && !facts.get(tx).is_aborted
        && are_settled(facts, so_far, listed)
}

fn put_doubted(
    facts: &LogFacts,
    shard: u32,
    r: &LogRecord,
    so_far: &mut TxSet,
) -> Result<(), Memory>
    ensures { OnOk result (so_far.new ≡ with_doubted facts.now shard r.now so_far.old) }
{
    if let LogRecord::Prepare {
        tx,
        home,
        predecessors,
    } = r
    {
        if is_in_doubt(facts, shard, *tx, *home, predecessors.as_slice(), so_far) {
            so_far.insert(*tx)?;
        }
    }
    Ok(())
}

// The transactions in doubt. A PREPARE lists transactions whose PREPAREs come before it, so one pass finds them all.
pub fn doubted(
    alloc: Global,
    facts: &LogFacts,
    records: &[LogRecord],
    shard: u32,
) -> Result<TxSet, Memory>
    requires { Knows facts.now records.now }
    ensures { IfOk result (λ set. set ≡ in_doubt shard records.now) }
{
    let mut so_far = TxSet::new(alloc);
    for r in records {
        put_doubted(facts, shard, r, &mut so_far)?;
    }
    Ok(so_far)
}

// One that is in doubt has a PREPARE, so the other answer never comes for it.
fn home_of(facts: &LogFacts, records: &[LogRecord], tx: TxId) -> u32
    ensures { result ≡ home_in facts.now records.now tx }
{
    home_at(records, facts.get(tx).prepare).unwrap_or(0)
}

// Each transaction with its home.
fn home_rows(
    alloc: Global,
    facts: &LogFacts,
    records: &[LogRecord],
    txs: &[TxId],
) -> Result<Vec<(TxId, u32)>, Memory>
    ensures { IfOk result (λ homes. homes.items ≡ map (λ t. (t, home_in facts.now records.now t)) txs.now) }
{
    txs.iter()
        .map(|tx| (*tx, home_of(facts, records, *tx)))
        .collect(alloc)
}

pub fn with_homes(
    alloc: Global,
    facts: &LogFacts,
    records: &[LogRecord],
    txs: &[TxId],
) -> Result<Vec<(TxId, u32)>, Memory>
    requires { Knows facts.now records.now }
    ensures { IfOk result (λ homes. homes.items ≡ homes_of records.now txs.now) }
{
    home_rows(alloc, facts, records, txs)
}

// The transaction with each that it lists and that isn't committed.
fn add_pairs(
    facts: &LogFacts,
    tx: TxId,
    listed: &[TxId],
    pairs: &mut Vec<(TxId, TxId)>,
) -> Result<(), Memory>
    ensures { OnOk result (pairs.new.items ≡ pairs.old.items ++ pairs_by facts.now tx listed.now) }
{
    for p in listed {
        if !is_committed(facts, *p) {
            pairs.push((tx, *p))?;
        }
    }
    Ok(())
}

// So for each of the transactions.
pub fn pairs_of(
    alloc: Global,
    facts: &LogFacts,
    records: &[LogRecord],
    txs: &[TxId],
) -> Result<Vec<(TxId, TxId)>, Memory>
    requires { Knows facts.now records.now }
    ensures { IfOk result (λ pairs. pairs.items ≡ restored_pairs records.now txs.now) }
{
    let mut pairs = Vec::new(alloc);
    for tx in txs {
        let listed = listed_at(records, facts.get(*tx).prepare);
        add_pairs(facts, *tx, listed, &mut pairs)?;
    }
    Ok(pairs)
}
