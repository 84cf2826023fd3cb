// The audit of a report.

ghost use Rattle.std.specs.Prelude.{◌≡◌, ◌≢◌, ◌≤◌, ◌<◌, ℕ, List, map, IfOk, IfErr, OnOk, MatchOption};
ghost use Rattle.clv_base.specs.Folding.{IsRising};
ghost use Rattle.clv_base.specs.Logs.{stands as stands_for};
ghost use Rattle.clv_base.specs.Maps.{KeyMap as MapType};
ghost use Rattle.report_reading.specs.Texts.{CanBeReported};
ghost use Rattle.report_reading.specs.Faults.{IsFault};
ghost use Rattle.clv_audit.specs.Right.{AreRight, IsFirstWrong, last_map};
ghost use Rattle.clv_audit.specs.Verdicts.{IsFirstDifference, IsVerdict, IsVerdictOf};
ghost use Rattle.clv_audit.specs.Keeping.{CanBeRun, Splits};

use crate::Memory;
use crate::steps::acts_are_right;
use crate::verdict::{AuditError, Verdict};
use clv_base::logs::LogRecord;
use clv_base::values::Value;
use history_replay::{KeyMap, stands};
use report_reading::{ReadError, Reported, ReportedTx, read_report};
use std::alloc::Global;

// The map of these pairs.
fn map_of(alloc: Global, pairs: &[(u64, Value)]) -> Result<KeyMap, Memory>
    requires { IsRising pairs.now }
    ensures { IfOk result (λ m. m ≡ pairs.now) }
{
    let mut found = KeyMap::new(alloc);
    for pair in pairs {
        found.set(pair.0, pair.1.copy())?;
    }
    Ok(found)
}

// The least key at which two pairs differ.
fn pairs_differ(one: &(u64, Value), other: &(u64, Value)) -> Option<u64>
    ensures { MatchOption result (one.now ≡ other.now) (λ key. Splits one.now other.now key) }
{
    if one.0 < other.0 {
        return Some(one.0);
    }
    if other.0 < one.0 {
        return Some(other.0);
    }
    if one.1.is(&other.1) {
        None
    } else {
        Some(one.0)
    }
}

// The least key at which two maps differ.
fn first_difference(one: &[(u64, Value)], other: &[(u64, Value)]) -> Option<u64>
    requires one { IsRising one.now }
    requires other { IsRising other.now }
    ensures { MatchOption result (one.now ≡ other.now) (λ key. IsFirstDifference key one.now other.now) }
{
    let both = one.len().min(other.len());
    for i in 0..both {
        if let Some(key) = pairs_differ(&one[i], &other[i]) {
            return Some(key);
        }
    }
    if both < other.len() {
        return Some(other[both].0);
    }
    if both < one.len() {
        return Some(one[both].0);
    }
    None
}

fn maps_differ(alloc: Global, one: &KeyMap, other: &KeyMap) -> Result<Option<u64>, Memory>
    requires one { IsRising one.now }
    requires other { IsRising other.now }
    ensures { IfOk result (λ found. MatchOption found (one.now ≡ other.now) (λ key. IsFirstDifference key one.now other.now)) }
{
    let one = one.pairs(alloc)?;
    let other = other.pairs(alloc)?;
    Ok(first_difference(&one, &other))
}

// The first transaction, counted from 1, with which those of a report are no serial run; else the map is that after all of them.
fn first_wrong(alloc: Global, pairs: &mut KeyMap, txs: &[ReportedTx]) -> Result<Option<u64>, Memory>
    requires rises { IsRising pairs.old }
    requires can { CanBeRun txs.now }
    ensures { IfOk result (λ found. MatchOption found (AreRight pairs.old txs.now × (pairs.new ≡ last_map pairs.old txs.now) × IsRising pairs.new) (λ place. IsFirstWrong pairs.old txs.now place)) }
{
    let mut lasts = [0u64; 65];
    let mut place: u64 = 0;
    for tx in txs {
        place += 1;
        let session = tx.session as usize;
        if tx.serial <= lasts[session] {
            return Ok(Some(place));
        }
        lasts[session] = tx.serial;
        if !acts_are_right(alloc, pairs, tx.acts.as_slice())? {
            return Ok(Some(place));
        }
    }
    Ok(None)
}

// The verdict on a report, where the logs stand for this map.
fn judge(alloc: Global, reported: &Reported, left: &KeyMap) -> Result<Verdict, Memory>
    requires can { CanBeReported reported.now }
    requires rises { IsRising left.now }
    ensures { IfOk result (λ verdict. IsVerdict reported.now left.now verdict) }
{
    let mut pairs = map_of(alloc, reported.pairs.as_slice())?;
    let txs = reported.txs.as_slice();
    if let Some(place) = first_wrong(alloc, &mut pairs, txs)? {
        return Ok(Verdict::Wrong { place });
    }
    if reported.unsettled != 0 {
        return Ok(Verdict::Open {
            count: reported.unsettled,
        });
    }
    match maps_differ(alloc, &pairs, left)? {
        Some(key) => Ok(Verdict::WrongMap { key }),
        None => Ok(Verdict::Yes {
            count: txs.len() as u64,
        }),
    }
}

/// The verdict on what a report tells, where these are the logs after its run.
pub fn verdict_on(
    alloc: Global,
    reported: &Reported,
    logs: &[Vec<LogRecord>],
) -> Result<Verdict, Memory>
    requires { CanBeReported reported.now }
    ensures { IfOk result (λ verdict. IsVerdict reported.now (stands_for (map (λ l. l.items) logs.now)) verdict) }
{
    let left = stands(alloc, logs)?;
    judge(alloc, reported, &left)
}

/// Whether a report is true: the bytes are the lines of a `show`, perhaps none, and the report of a run behind it, and these are the logs after that
/// run. Only reads.
pub fn check_report(
    alloc: Global,
    bytes: &[u8],
    logs: &[Vec<LogRecord>],
) -> Result<Verdict, AuditError>
    ensures verdict { IfOk result (λ verdict. IsVerdictOf bytes.now (stands_for (map (λ l. l.items) logs.now)) verdict) }
    ensures fault { IfErr result (λ error. (line : ℕ) → error ≡ AuditError.Text line → IsFault bytes.now line) }
{
    let reported = match read_report(alloc, bytes) {
        Ok(reported) => reported,
        Err(ReadError::Text { line }) => return Err(AuditError::Text { line }),
        Err(ReadError::Memory) => return Err(AuditError::Memory),
    };
    match verdict_on(alloc, &reported, logs) {
        Ok(verdict) => Ok(verdict),
        Err(_) => Err(AuditError::Memory),
    }
}
