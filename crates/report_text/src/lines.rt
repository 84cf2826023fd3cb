// The line of a transaction.

ghost use Rattle.std.specs.Prelude.{◌≡◌, ◌++◌, ◌∷◌, IfOk, OnOk, map, false};
ghost use Rattle.serde_json.specs.Data.{string};
ghost use Rattle.serde_json.specs.Written.{has_float};
ghost use Rattle.clv_base.specs.declared.ops.Op.TheVariants.{Put};
ghost use Rattle.serde_json.specs.View.{view};
ghost use Rattle.session_books.specs.Done.{WentBack};
ghost use Rattle.report_text.specs.Lines.{line as line_of, num, list as list_of, row as row_of, optional as optional_value, value_data, pair as pair_value, operation as operation_value, act as act_value, acts as acts_values, transaction as transaction_value};

use crate::Memory;
use clv_base::ops::Op;
use clv_base::values::Value as Stored;
use hex::encode;
use serde_json::{Value, json};
use session_books::books::Row;
use session_books::done::{Done, Held};
use std::alloc::Global;

// A value as compact JSON, with a line feed, is added to a text.
pub fn add_line(alloc: Global, text: &mut Vec<u8>, value: Value) -> Result<(), Memory>
    requires { has_float (view value) ≡ false }
    ensures { OnOk result (text.new.items ≡ text.old.items ++ line_of (view value)) }
{
    let next = value.to_string(alloc)?;
    text.extend_from_slice(next.as_bytes())?;
    text.push(b'\n')?;
    Ok(())
}

// A number, or the text's bytes as two digits each.
fn stored(alloc: Global, value: &Stored) -> Result<Value, Memory>
    ensures { IfOk result (λ v. view v ≡ value_data value.now) }
{
    match value {
        Stored::Num(number) => Ok(Value::from(*number)),
        Stored::Bytes(text) => Ok(Value::String(encode(alloc, text.as_slice())?)),
    }
}

fn optional(alloc: Global, value: &Option<Stored>) -> Result<Value, Memory>
    ensures { IfOk result (λ v. view v ≡ optional_value value.now) }
{
    match value {
        Some(value) => stored(alloc, value),
        None => Ok(Value::Null),
    }
}

// The numbers are added to a list of values.
fn add_numbers(values: &mut Vec<Value>, numbers: &[u64]) -> Result<(), Memory>
    ensures { OnOk result (map view values.new.items ≡ map view values.old.items ++ map num numbers.now) }
{
    for number in numbers {
        values.push(Value::from(*number))?;
    }
    Ok(())
}

pub fn pair(alloc: Global, key: u64, value: &Stored) -> Result<Value, Memory>
    ensures { IfOk result (λ v. view v ≡ pair_value (key, value.now)) }
{
    let told = stored(alloc, value)?;
    let mut values = Vec::new(alloc);
    values.push(Value::from(key))?;
    values.push(told)?;
    Ok(Value::Array(values))
}

// The pairs are added to a list of values.
fn add_pairs(alloc: Global, values: &mut Vec<Value>, pairs: &[(u64, Stored)]) -> Result<(), Memory>
    ensures { OnOk result (map view values.new.items ≡ map view values.old.items ++ map pair_value pairs.now) }
{
    for entry in pairs {
        values.push(pair(alloc, entry.0, &entry.1)?)?;
    }
    Ok(())
}

// The pairs that a scan was answered.
fn pairs_value(alloc: Global, pairs: &[(u64, Stored)]) -> Result<Value, Memory>
    ensures { IfOk result (λ v. view v ≡ list_of (map pair_value pairs.now)) }
{
    let mut values = Vec::new(alloc);
    add_pairs(alloc, &mut values, pairs)?;
    Ok(Value::Array(values))
}

// What a row begins with.
fn head(alloc: Global, word: &str, numbers: &[u64]) -> Result<Vec<Value>, Memory>
    ensures { IfOk result (λ values. map view values.items ≡ string word.now ∷ map num numbers.now) }
{
    let mut values = Vec::new(alloc);
    values.push(Value::try_from_str(alloc, word)?)?;
    add_numbers(&mut values, numbers)?;
    Ok(values)
}

// A word, numbers, and what was answered.
fn row(alloc: Global, word: &str, numbers: &[u64], answered: Value) -> Result<Value, Memory>
    ensures { IfOk result (λ v. view v ≡ row_of word.now numbers.now (view answered)) }
{
    let mut values = head(alloc, word, numbers)?;
    values.push(answered)?;
    Ok(Value::Array(values))
}

// What a Put put, and what was answered.
fn put_row(alloc: Global, key: u64, value: &Stored, answered: Value) -> Result<Value, Memory>
    ensures { IfOk result (λ v. view v ≡ operation_value (Put key value.now) (view answered)) }
{
    let put = stored(alloc, value)?;
    let mut values = head(alloc, "put", &[key])?;
    values.push(put)?;
    values.push(answered)?;
    Ok(Value::Array(values))
}

// An operation, with what was answered.
fn operation(alloc: Global, op: &Op, answered: Value) -> Result<Value, Memory>
    ensures { IfOk result (λ v. view v ≡ operation_value op.now (view answered)) }
{
    match op {
        Op::Get(key) => row(alloc, "get", &[*key], answered),
        Op::Put(key, value) => put_row(alloc, *key, value, answered),
        Op::Del(key) => row(alloc, "del", &[*key], answered),
        Op::Scan(low, high) => row(alloc, "scan", &[*low, *high], answered),
        Op::Add(key, by) => row(alloc, "add", &[*key, *by], answered),
    }
}

fn back(alloc: Global, upto: u64) -> Result<Value, Memory>
    ensures { IfOk result (λ v. view v ≡ act_value (WentBack upto)) }
{
    Ok(Value::Array(head(alloc, "back", &[upto])?))
}

// An operation with its answer, or a going back.
fn act(alloc: Global, done: &Done) -> Result<Value, Memory>
    ensures { IfOk result (λ v. view v ≡ act_value done.now) }
{
    match done.held() {
        Held::Valued(op, value) => operation(alloc, &op.op(), optional(alloc, value)?),
        Held::Listed(op, pairs) => {
            operation(alloc, &op.op(), pairs_value(alloc, pairs.as_slice())?)
        }
        Held::Added(op, found) => operation(alloc, &op.op(), Value::Bool(*found)),
        Held::Back(upto) => back(alloc, *upto),
    }
}

// What a row's transaction did.
fn row_acts(alloc: Global, acts: &[Done]) -> Result<Vec<Value>, Memory>
    ensures { IfOk result (λ values. map view values.items ≡ acts_values acts.now) }
{
    let mut values = Vec::new(alloc);
    for one in acts {
        values.push(act(alloc, one)?)?;
    }
    Ok(values)
}

// The object of a row.
pub fn row_object(alloc: Global, row: &Row) -> Result<Value, Memory>
    ensures { IfOk result (λ v. view v ≡ transaction_value row.now.tx row.now.ops) }
{
    let ops = row_acts(alloc, row.ops.as_slice())?;
    json!(in alloc; {"ops": ops, "serial": row.tx.serial, "session": row.tx.session})
}
