//! The records that a log leaves of those that win in it.
ghost use Rattle.std.specs.Prelude.{◌≡◌, ◌≤◌, ◌<◌, ◌+◌, ◌==◌, ℕ, [], None, map, not, OnOk};
ghost use Rattle.std.specs.List.{filter};
ghost use Rattle.clv_base.specs.Maps.{KeyMap, map_set};
ghost use Rattle.clv_base.specs.Logs.{fold_updates, in_doubt, standing};
ghost use Rattle.clv_base.specs.Needs.{record_set, is_there, live_of, value_at};
ghost use Rattle.clv_base.specs.Restarts.{records_of, with_ghosts};
ghost use Rattle.log_analysis.specs.Facts.{Knows};
ghost use Rattle.shard_recovery.specs.Winning.{wins_in, left_at, writes_after, with_ghost, records_after};

use crate::writes::{Left, Write, by_key};
use clv_base::changes::plus;
use clv_base::logs::LogRecord;
use clv_base::modes::Found;
use clv_base::names::TxId;
use clv_base::values::Value;
use log_analysis::{LogFacts, TxSet, standing_lsns};
use ordered_store::Store;
use std::alloc::{AllocError, Global};

/// Takes the record at a key away, if there is one.
fn remove<S: Store>(store: &mut S, key: u64)
    ensures records { S.records store.new ≡ filter (λ r. not (r.0 == key)) (S.records store.old) }
    ensures room { S.room store.old ≤ S.room store.new }
{
    match store.get(key) {
        Found::Absent => {}
        Found::Live(_) => {
            store.hide(key);
            store.purge(key);
        }
        Found::Ghost => store.purge(key),
    }
}

/// Sets the value at a key, or takes its record away.
fn set<S: Store>(store: &mut S, key: u64, value: Option<Value>)
    requires { 0 < S.room store.old }
    ensures records { (m : KeyMap) → S.records store.old ≡ records_of m → S.records store.new ≡ records_of (map_set key value m) }
    ensures room { S.room store.old ≤ S.room store.new + 1 }
{
    match value {
        Some(value) => {
            store.set(key, value);
        }
        None => remove(store, key),
    }
}

/// What stands there, where it is live.
fn live(found: Found) -> Option<Value>
    ensures { result ≡ live_of found }
{
    match found {
        Found::Live(value) => Some(value),
        Found::Ghost | Found::Absent => None,
    }
}

/// The value that a write leaves at its key.
fn value_left<S: Store>(store: &S, write: &Write) -> Option<Value>
    ensures { result ≡ left_at write.now.left (value_at write.now.key (S.records store.now)) }
{
    match &write.left {
        Left::Nothing => None,
        Left::Num(number) => Some(Value::Num(*number)),
        Left::Bytes(text) => Some(Value::Bytes(text.copy())),
        Left::More(by) => plus(&live(store.get(write.key)), *by),
    }
}

/// Puts these writes into an empty store, in order. It makes room write by write, as there may be far fewer keys.
fn put_all<S: Store>(store: &mut S, writes: &[Write]) -> Result<(), AllocError>
    requires empty { S.records store.old ≡ [] }
    ensures ok { OnOk result (S.records store.new ≡ records_of (writes_after writes.now [])) }
{
    for write in writes {
        store.reserve(1)?;
        let value = value_left(store, write);
        set(store, write.key, value);
    }
    Ok(())
}

/// Puts what the log begins with into an empty store, and does the UPDATEs and ADDs of the winners that stand again.
fn fold<S: Store>(
    alloc: Global,
    store: &mut S,
    facts: &LogFacts,
    doubtful: &TxSet,
    log: &[LogRecord],
) -> Result<(), AllocError>
    requires knows { Knows facts.now log.now }
    requires empty { S.records store.old ≡ [] }
    ensures ok { OnOk result (S.records store.new ≡ records_of (fold_updates (wins_in log.now doubtful.now) log.now [])) }
{
    let writes = by_key(alloc, facts, doubtful, log)?;
    put_all(store, &writes)
}

/// Makes the record at a key a ghost, whether there is one or not.
fn hide<S: Store>(store: &mut S, key: u64)
    requires { 0 < S.room store.old }
    ensures records { S.records store.new ≡ record_set key None (S.records store.old) }
    ensures room { S.room store.old ≤ S.room store.new + 1 }
{
    store.set(key, Value::Num(0));
    store.hide(key);
}

/// Whether no record stands there.
fn is_absent(found: &Found) -> bool
    ensures { result ≡ not (is_there found.now) }
{
    match found {
        Found::Absent => true,
        Found::Live(_) | Found::Ghost => false,
    }
}

/// Makes a ghost at the key of an UPDATE or ADD of one of these, where there is no record.
fn haunt_one<S: Store>(store: &mut S, doubtful: &TxSet, found: &LogRecord)
    requires { 0 < S.room store.old }
    ensures records { S.records store.new ≡ with_ghost doubtful.now found.now (S.records store.old) }
    ensures room { S.room store.old ≤ S.room store.new + 1 }
{
    match found {
        LogRecord::Update { tx, key, .. } | LogRecord::Add { tx, key, .. } => {
            if doubtful.contains(*tx) && is_absent(&store.get(*key)) {
                hide(store, *key);
            }
        }
        _ => {}
    }
}

/// Makes a ghost at each key that these wrote and that has no record, by what stands at these LSNs, the newest first.
fn haunt_at<S: Store>(
    store: &mut S,
    doubtful: &TxSet,
    log: &[LogRecord],
    lsns: &[u64],
) -> Result<(), AllocError>
    requires { lsns.now ≡ map (λ w. w.lsn) (standing log.now) }
    ensures ok { OnOk result (S.records store.new ≡ with_ghosts doubtful.now (standing log.now) (S.records store.old)) }
{
    for place in 0..lsns.len() {
        store.reserve(1)?;
        haunt_one(store, doubtful, &log[lsns[place] as usize]);
    }
    Ok(())
}

/// The same by what stands in the log, and nothing at all where these are none.
#[tactic(auto, using(crate::proofs::Folded::ghosts_of_nobody))]
fn haunt<S: Store>(
    alloc: Global,
    store: &mut S,
    doubtful: &TxSet,
    log: &[LogRecord],
) -> Result<(), AllocError>
    ensures ok { OnOk result (S.records store.new ≡ with_ghosts doubtful.now (standing log.now) (S.records store.old)) }
{
    if doubtful.is_empty() {
        return Ok(());
    }
    let lsns = standing_lsns(alloc, log)?;
    haunt_at(store, doubtful, log, &lsns)
}

/// Puts the records of a shard whose log is this, and known, into an empty store, as a restart leaves them: the values that the UPDATEs and ADDs
/// of the committed and of those in doubt that stand leave, in the log's order, and ghosts at the keys that those in doubt so wrote and that have
/// no value. An `Err` leaves the store in the middle of it. Besides the store it takes a list of what those write, which goes at the return, and
/// before it one of the LSNs of what stands.
pub(crate) fn fill<S: Store>(
    alloc: Global,
    store: &mut S,
    facts: &LogFacts,
    log: &[LogRecord],
    doubtful: &[TxId],
) -> Result<(), AllocError>
    requires knows { Knows facts.now log.now }
    requires empty { S.records store.old ≡ [] }
    ensures ok { OnOk result ((shard : ℕ) → doubtful.now ≡ in_doubt shard log.now → S.records store.new ≡ records_after shard log.now) }
{
    let names = TxSet::of(alloc, doubtful)?;
    fold(alloc, store, facts, &names, log)?;
    haunt(alloc, store, &names, log)
}
