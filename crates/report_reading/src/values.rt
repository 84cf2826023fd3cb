// Values, as a report tells them.

ghost use Rattle.std.specs.Prelude.{◌≡◌, ◌↔◌, ℕ, List, true, map, IfOk, IsTrue, MatchOption};
ghost use Rattle.std.specs.List.{list_all};
ghost use Rattle.serde_json.specs.Data.{string, boolean};
ghost use Rattle.serde_json.specs.View.{view};
ghost use Rattle.hex.specs.Hex.{encode_lower};
ghost use Rattle.hex.specs.declared.error.FromHexError.TheVariants.{OutOfMemory};
ghost use Rattle.clv_base.specs.declared.values.Value.TheVariants.{Bytes as BytesOf};
ghost use Rattle.clv_base.specs.Values.{fits_value};
ghost use Rattle.script_lang.specs.Laws.{is_word};
ghost use Rattle.report_text.specs.Lines.{num, list as list_of, value_data, optional as optional_value, pair as pair_value};
ghost use Rattle.report_reading.specs.Told.{fits_optional, fits_pair};
ghost use Rattle.report_reading.specs.Finding.{Finds};

use crate::Memory;
use clv_base::lists::Pairs;
use clv_base::texts::ByteText;
use clv_base::values::Value as Stored;
use hex::FromHexError;
use serde_json::Value;
use std::alloc::{AllocError, Global};

pub fn number_in(value: &Value) -> Option<u64>
    ensures { Finds is_word num result (view value.now) }
{
    match value.as_u64() {
        Some(number) => Some(number),
        None => None,
    }
}

/// Whether it is this word.
pub fn is_the(value: &Value, word: &str) -> bool
    ensures { IsTrue result ↔ (view value.now ≡ string word.now) }
{
    match value.as_str() {
        Some(text) => text == word,
        None => false,
    }
}

fn is_memory(error: &FromHexError) -> bool
    ensures { IsTrue result ↔ (error.now ≡ OutOfMemory) }
{
    matches!(error, FromHexError::OutOfMemory)
}

// The bytes that a text spells, two digits each.
fn text_in(alloc: Global, text: &str) -> Result<Option<ByteText>, Memory>
    ensures { IfOk result (λ found. MatchOption found ((bytes : List ℕ) → fits_value (BytesOf bytes) ≡ true → encode_lower bytes ≡ text.now → ⊥) (λ bytes. encode_lower bytes ≡ text.now)) }
{
    if text.len() > 400 {
        return Ok(None);
    }
    let bytes = match hex::decode(alloc, text.as_bytes()) {
        Ok(bytes) => bytes,
        Err(error) => return if is_memory(&error) {
            Err(AllocError)
        } else {
            Ok(None)
        },
    };
    let digits = hex::encode(alloc, bytes.as_slice())?;
    if digits.as_str() != text {
        return Ok(None);
    }
    Ok(Some(ByteText::new(alloc, bytes.as_slice())?))
}

/// A number, or the bytes of a text.
pub fn stored_in(alloc: Global, value: &Value) -> Result<Option<Stored>, Memory>
    ensures { IfOk result (λ found. Finds fits_value value_data found (view value.now)) }
{
    if let Some(number) = number_in(value) {
        return Ok(Some(Stored::Num(number)));
    }
    let Some(text) = value.as_str() else {
        return Ok(None);
    };
    let Some(bytes) = text_in(alloc, text)? else {
        return Ok(None);
    };
    let kept = Stored::Bytes(bytes);
    kept.fits();
    Ok(Some(kept))
}

/// A value that may be none.
pub fn optional_in(alloc: Global, value: &Value) -> Result<Option<Option<Stored>>, Memory>
    ensures { IfOk result (λ found. Finds fits_optional optional_value found (view value.now)) }
{
    if value.is_null() {
        return Ok(Some(None));
    }
    match stored_in(alloc, value)? {
        Some(kept) => Ok(Some(Some(kept))),
        None => Ok(None),
    }
}

// The pair that two values are.
fn pair_of(alloc: Global, values: &[Value]) -> Result<Option<(u64, Stored)>, Memory>
    ensures { IfOk result (λ found. Finds fits_pair pair_value found (list_of (map view values.now))) }
{
    if values.len() != 2 {
        return Ok(None);
    }
    let Some(key) = number_in(&values[0]) else {
        return Ok(None);
    };
    match stored_in(alloc, &values[1])? {
        Some(kept) => Ok(Some((key, kept))),
        None => Ok(None),
    }
}

pub fn pair_in(alloc: Global, value: &Value) -> Result<Option<(u64, Stored)>, Memory>
    ensures { IfOk result (λ found. Finds fits_pair pair_value found (view value.now)) }
{
    match value.as_array() {
        Some(values) => pair_of(alloc, values.as_slice()),
        None => Ok(None),
    }
}

// The pairs that all of these are.
fn each_pair(alloc: Global, values: &[Value]) -> Result<Option<Vec<(u64, Stored)>>, Memory>
    ensures { IfOk result (λ found. MatchOption found ((ps : List (ℕ × Stored)) → list_all fits_pair ps ≡ true → map pair_value ps ≡ map view values.now → ⊥) (λ ps. (list_all fits_pair ps.items ≡ true) × (map pair_value ps.items ≡ map view values.now))) }
{
    let mut pairs = Vec::new(alloc);
    for value in values {
        match pair_in(alloc, value)? {
            Some(pair) => pairs.push(pair)?,
            None => return Ok(None),
        }
    }
    Ok(Some(pairs))
}

/// The pairs that a scan was answered.
pub fn pairs_in(alloc: Global, value: &Value) -> Result<Option<Pairs>, Memory>
    ensures { IfOk result (λ found. Finds (list_all fits_pair) (λ ps. list_of (map pair_value ps)) found (view value.now)) }
{
    let Some(values) = value.as_array() else {
        return Ok(None);
    };
    match each_pair(alloc, values.as_slice())? {
        Some(pairs) => Ok(Some(Pairs::new(pairs))),
        None => Ok(None),
    }
}
