// What is shown.

ghost use Rattle.std.specs.Prelude.{◌≡◌, ◌&&◌, ◌||◌, map, IfOk, OnOk};
ghost use Rattle.std.specs.List.{list_all};
ghost use Rattle.clv_base.specs.declared.names.TxId.{TxId as Tx};
ghost use Rattle.clv_base.specs.Logs.{committed_in, fold_updates, is_commit_of};
ghost use Rattle.history_replay.specs.Transactions.{has_member};
ghost use Rattle.standby_base.specs.Standby.{checked_places as places_checked, is_begun as has_begun, shown as shown_of};
ghost use Rattle.standby_maps.specs.Shown.{commit_passes, is_shown_by, shown_by};

use crate::{Memory, members};
use clv_base::logs::LogRecord;
use history_replay::{KeyMap, TxSet, fold};
use std::alloc::Global;

// How many places a checkpoint at the beginning stands for.
fn checked_places(log: &[LogRecord]) -> u64
    ensures { result ≡ places_checked log.now }
{
    match log.first() {
        Some(LogRecord::Check { upto, .. }) => *upto,
        _ => 0,
    }
}

fn is_begun(log: &[LogRecord]) -> bool
    ensures { result ≡ has_begun log.now }
{
    !log.is_empty() && checked_places(log) <= log.len() as u64
}

// Whether the record, if it is a COMMIT, is that of one of the set.
fn passes(set: &TxSet, r: &LogRecord) -> bool
    ensures { result ≡ commit_passes (has_member set.now) r.now }
{
    match r {
        LogRecord::Commit { tx, .. } => set.contains(*tx),
        _ => true,
    }
}

fn all_pass(set: &TxSet, records: &[LogRecord]) -> bool
    ensures { result ≡ list_all (commit_passes (has_member set.now)) records.now }
{
    records.iter().all(|r| passes(set, r))
}

// Whether the stream has a record and all that its checkpoint stands for, which kept COMMITs of the set alone.
fn is_shown(set: &TxSet, log: &[LogRecord]) -> bool
    ensures { result ≡ is_shown_by (has_member set.now) log.now }
{
    if !is_begun(log) {
        return false;
    }
    let count = checked_places(log) as usize;
    all_pass(set, &log[..count])
}

fn all_shown(set: &TxSet, streams: &[Vec<LogRecord>]) -> bool
    ensures { result ≡ list_all (is_shown_by (has_member set.now)) (map (λ l. l.items) streams.now) }
{
    for log in streams {
        if !is_shown(set, log) {
            return false;
        }
    }
    true
}

// The transaction of a COMMIT joins, if it is of the set.
fn put_if(own: &mut TxSet, set: &TxSet, r: &LogRecord) -> Result<(), Memory>
    ensures { OnOk result ((t : Tx) → has_member own.new t ≡ (has_member own.old t || (has_member set.now t && is_commit_of t r.now))) }
{
    if let LogRecord::Commit { tx, .. } = r {
        if set.contains(*tx) {
            own.insert(*tx)?;
        }
    }
    Ok(())
}

// Those of the set that have a COMMIT in the log.
fn committed_here(alloc: Global, set: &TxSet, log: &[LogRecord]) -> Result<TxSet, Memory>
    ensures { IfOk result (λ own. (t : Tx) → has_member own t ≡ (has_member set.now t && committed_in log.now t)) }
{
    let mut own = TxSet::new(alloc);
    for r in log {
        put_if(&mut own, set, r)?;
    }
    Ok(own)
}

// The stream's checkpoint and the standing writes of those of the set that have a COMMIT there are done.
fn fold_here(
    alloc: Global,
    pairs: &mut KeyMap,
    set: &TxSet,
    log: &[LogRecord],
) -> Result<(), Memory>
    ensures { OnOk result (pairs.new ≡ fold_updates (λ t. has_member set.now t && committed_in log.now t) log.now pairs.old) }
{
    let own = committed_here(alloc, set, log)?;
    fold(alloc, pairs, &own, log)
}

fn fold_all(
    alloc: Global,
    pairs: &mut KeyMap,
    set: &TxSet,
    streams: &[Vec<LogRecord>],
) -> Result<(), Memory>
    ensures { OnOk result (pairs.new ≡ shown_by (has_member set.now) (map (λ l. l.items) streams.now) pairs.old) }
{
    for log in streams {
        fold_here(alloc, pairs, set, log)?;
    }
    Ok(())
}

/// What the streams show, the stream of shard i at place i: none while a stream has no record, or not all that a checkpoint at its beginning stands for, or
/// the checkpoint kept the COMMIT of one that isn't a member; else, stream by stream, the checkpoint's map and the standing writes of the members that have
/// their COMMIT there.
pub fn shown(alloc: Global, streams: &[Vec<LogRecord>]) -> Result<Option<KeyMap>, Memory>
    ensures { IfOk result (λ shown. shown ≡ shown_of (map (λ l. l.items) streams.now)) }
{
    let members = members(alloc, streams)?;
    let set = TxSet::of(alloc, members.as_slice())?;
    if !all_shown(&set, streams) {
        return Ok(None);
    }
    let mut pairs = KeyMap::new(alloc);
    fold_all(alloc, &mut pairs, &set, streams)?;
    Ok(Some(pairs))
}
