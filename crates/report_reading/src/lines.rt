// A line of a report, without its line feed.

ghost use Rattle.std.specs.Prelude.{◌≡◌, ◌↔◌, ◌++◌, ℕ, true, false, Some, codes, IfOk, OnOk, IsTrue, MatchOption};
ghost use Rattle.serde_json.specs.Data.{Data, object, member, no_members};
ghost use Rattle.serde_json.specs.Find.{get};
ghost use Rattle.serde_json.specs.View.{view};
ghost use Rattle.serde_json.specs.Written.{compact_text, has_float};
ghost use Rattle.clv_base.specs.declared.values.Value.{Value as ValueType};
ghost use Rattle.session_books.specs.declared.counts.Counts.{Counts as CountsType};
ghost use Rattle.script_lang.specs.Laws.{is_word};
ghost use Rattle.report_text.specs.Lines.{num, pair as pair_value, transaction};
ghost use Rattle.report_text.specs.Counts.{summary};
ghost use Rattle.report_reading.specs.Told.{ReportedTx as TxType, fits_pair, can_be_told};
ghost use Rattle.report_reading.specs.Texts.{Line as LineType, named, data_of, can_stand, fits_counts};

use crate::Memory;
use crate::acts::acts_in;
use crate::told::{Line, ReportedTx};
use crate::values::{number_in, pair_in};
use clv_base::values::Value as Stored;
use serde_json::{Value, json};
use session_books::counts::Counts;
use std::alloc::{AllocError, Global};

// Whether a text is what is written of a value.
fn is_written(alloc: Global, value: &Value, text: &[u8]) -> Result<bool, Memory>
    requires { has_float (view value.now) ≡ false }
    ensures { IfOk result (λ is. IsTrue is ↔ (text.now ≡ compact_text (view value.now))) }
{
    let written = value.to_string(alloc)?;
    Ok(written.as_bytes() == text)
}

fn pair_line(alloc: Global, value: &Value, text: &[u8]) -> Result<Option<(u64, Stored)>, Memory>
    ensures { IfOk result (λ found. MatchOption found ((p : ℕ × ValueType) → fits_pair p ≡ true → view value.now ≡ pair_value p → text.now ≡ compact_text (view value.now) → ⊥) (λ p. (fits_pair p ≡ true) × (text.now ≡ compact_text (pair_value p)))) }
{
    let Some(pair) = pair_in(alloc, value)? else {
        return Ok(None);
    };
    if is_written(alloc, value, text)? {
        Ok(Some(pair))
    } else {
        Ok(None)
    }
}

fn add_text(alloc: Global, text: &mut Vec<u8>, value: &Value) -> Result<(), Memory>
    requires { has_float (view value.now) ≡ false }
    ensures { OnOk result (text.new.items ≡ text.old.items ++ compact_text (view value.now)) }
{
    let written = value.to_string(alloc)?;
    text.extend_from_slice(written.as_bytes())?;
    Ok(())
}

fn add_bytes(text: &mut Vec<u8>, bytes: &[u8]) -> Result<(), Memory>
    ensures { OnOk result (text.new.items ≡ text.old.items ++ bytes.now) }
{
    text.extend_from_slice(bytes)?;
    Ok(())
}

// What is written of a transaction.
fn tx_text(alloc: Global, acts: &Value, serial: u64, session: u64) -> Result<Vec<u8>, Memory>
    requires { has_float (view acts.now) ≡ false }
    ensures { IfOk result (λ text. text.items ≡ compact_text (object (member (codes "ops") (view acts.now) (member (codes "serial") (num serial) (member (codes "session") (num session) no_members))))) }
{
    let mut text = Vec::new(alloc);
    add_bytes(&mut text, b"{\"ops\":")?;
    add_text(alloc, &mut text, acts)?;
    add_bytes(&mut text, b",\"serial\":")?;
    add_text(alloc, &mut text, &Value::from(serial))?;
    add_bytes(&mut text, b",\"session\":")?;
    add_text(alloc, &mut text, &Value::from(session))?;
    add_bytes(&mut text, b"}")?;
    Ok(text)
}

// The number under a name.
fn number_at(value: &Value, name: &str) -> Option<u64>
    ensures { MatchOption result ((n : ℕ) → is_word n ≡ true → get name.now (view value.now) ≡ Some (num n) → ⊥) (λ n. (is_word n ≡ true) × (get name.now (view value.now) ≡ Some (num n))) }
{
    match value.get(name) {
        Some(number) => number_in(number),
        None => None,
    }
}

fn tx_line(
    alloc: Global,
    value: &Value,
    acts: &Value,
    text: &[u8],
) -> Result<Option<ReportedTx>, Memory>
    requires { get (codes "ops") (view value.now) ≡ Some (view acts.now) }
    ensures { IfOk result (λ found. MatchOption found ((t : TxType) → can_be_told t ≡ true → view value.now ≡ transaction (named t) t.acts → text.now ≡ compact_text (view value.now) → ⊥) (λ t. (can_be_told t ≡ true) × (text.now ≡ compact_text (transaction (named t) t.acts)))) }
{
    let Some(serial) = number_at(value, "serial") else {
        return Ok(None);
    };
    let Some(session) = number_at(value, "session") else {
        return Ok(None);
    };
    if serial == 0 || session == 0 || session > 64 {
        return Ok(None);
    }
    let Some(told) = acts_in(alloc, acts)? else {
        return Ok(None);
    };
    let written = tx_text(alloc, acts, serial, session)?;
    if written.as_slice() != text {
        return Ok(None);
    }
    Ok(Some(ReportedTx {
        session: session as u32,
        serial,
        acts: told,
    }))
}

// What is written of counts.
fn counts_value(alloc: Global, counts: Counts) -> Result<Value, Memory>
    ensures { IfOk result (λ v. view v ≡ summary counts) }
{
    json!(in alloc; {"aborted": counts.aborted, "acknowledged": counts.acknowledged, "unsettled": counts.unsettled})
}

fn counts_in(value: &Value) -> Option<Counts>
    ensures { MatchOption result ((c : CountsType) → fits_counts c ≡ true → view value.now ≡ summary c → ⊥) (λ c. (fits_counts c ≡ true) × ((d : CountsType) → fits_counts d ≡ true → view value.now ≡ summary d → d ≡ c)) }
{
    let acknowledged = number_at(value, "acknowledged")?;
    let unsettled = number_at(value, "unsettled")?;
    let aborted = number_at(value, "aborted")?;
    Some(Counts {
        acknowledged,
        unsettled,
        aborted,
    })
}

fn counts_line(alloc: Global, value: &Value, text: &[u8]) -> Result<Option<Counts>, Memory>
    ensures { IfOk result (λ found. MatchOption found ((c : CountsType) → fits_counts c ≡ true → view value.now ≡ summary c → text.now ≡ compact_text (view value.now) → ⊥) (λ c. (fits_counts c ≡ true) × (text.now ≡ compact_text (summary c)))) }
{
    let Some(counts) = counts_in(value) else {
        return Ok(None);
    };
    let written = counts_value(alloc, counts)?;
    if is_written(alloc, &written, text)? {
        Ok(Some(counts))
    } else {
        Ok(None)
    }
}

// The value of a text, if it is JSON.
fn value_of(alloc: Global, text: &[u8]) -> Result<Option<Value>, Memory>
    ensures { IfOk result (λ found. MatchOption found ((l : LineType) → can_stand l ≡ true → text.now ≡ compact_text (data_of l) → ⊥) (λ v. (l : LineType) → can_stand l ≡ true → text.now ≡ compact_text (data_of l) → view v ≡ data_of l)) }
{
    match Value::from_slice(alloc, text) {
        Ok(value) => Ok(Some(value)),
        Err(error) => {
            if error.is_memory() {
                Err(AllocError)
            } else {
                Ok(None)
            }
        }
    }
}

fn line_by(alloc: Global, value: &Value, text: &[u8]) -> Result<Option<Line>, Memory>
    ensures { IfOk result (λ found. MatchOption found ((l : LineType) → can_stand l ≡ true → view value.now ≡ data_of l → text.now ≡ compact_text (view value.now) → ⊥) (λ l. (can_stand l ≡ true) × (text.now ≡ compact_text (data_of l)))) }
{
    if value.is_array() {
        return match pair_line(alloc, value, text)? {
            Some((key, kept)) => Ok(Some(Line::Pair(key, kept))),
            None => Ok(None),
        };
    }
    if let Some(acts) = value.get("ops") {
        return match tx_line(alloc, value, acts, text)? {
            Some(tx) => Ok(Some(Line::Tx(tx))),
            None => Ok(None),
        };
    }
    match counts_line(alloc, value, text)? {
        Some(counts) => Ok(Some(Line::Sums(counts))),
        None => Ok(None),
    }
}

/// What a line tells, if it is exactly what is written of that.
pub fn line_in(alloc: Global, text: &[u8]) -> Result<Option<Line>, Memory>
    ensures { IfOk result (λ found. MatchOption found ((l : LineType) → can_stand l ≡ true → text.now ≡ compact_text (data_of l) → ⊥) (λ l. (can_stand l ≡ true) × (text.now ≡ compact_text (data_of l)))) }
{
    match value_of(alloc, text)? {
        Some(value) => line_by(alloc, &value, text),
        None => Ok(None),
    }
}
