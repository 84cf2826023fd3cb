// The line of a reply.

ghost use Rattle.std.specs.Prelude.{◌≡◌, ◌++◌, ◌∷◌, [], IfOk, OnOk, OnErr, map, codes, false};
ghost use Rattle.serde_json.specs.Data.{string};
ghost use Rattle.serde_json.specs.Written.{has_float};
ghost use Rattle.serde_json.specs.View.{view};
ghost use Rattle.live_lines.specs.Replies.{line as line_of, num, list as list_of, row as row_of, value_data, optional as optional_value, pair as pair_value, answer as answer_data, name as name_data, operation as operation_data, why as why_data, cause_of as cause_data, refusal_text as refusal_by, told as told_data, reply_line};

use crate::Memory;
use crate::calls::{Refusal, Reply};
use clv_base::causes::{AbortCause, NoWhy};
use clv_base::names::TxId;
use clv_base::ops::{Answer, Op};
use clv_base::values::Value as Stored;
use hex::encode;
use serde_json::Value;
use std::alloc::Global;

// The numbers are added to a list of values.
fn add_numbers(values: &mut Vec<Value>, numbers: &[u64]) -> Result<(), Memory>
    ensures { OnOk result (map view values.new.items ≡ map view values.old.items ++ map num numbers.now) }
{
    for number in numbers {
        values.push(Value::from(*number))?;
    }
    Ok(())
}

fn add_word(alloc: Global, values: &mut Vec<Value>, word: &str) -> Result<(), Memory>
    ensures { OnOk result (map view values.new.items ≡ map view values.old.items ++ string word.now ∷ []) }
{
    values.push(Value::try_from_str(alloc, word)?)?;
    Ok(())
}

// A list of numbers.
fn numbers(alloc: Global, list: &[u64]) -> Result<Value, Memory>
    ensures { IfOk result (λ v. view v ≡ list_of (map num list.now)) }
{
    let mut values = Vec::new(alloc);
    add_numbers(&mut values, list)?;
    Ok(Value::Array(values))
}

// A session, a word, and numbers.
fn row(alloc: Global, session: u64, word: &str, numbers: &[u64]) -> Result<Vec<Value>, Memory>
    ensures { IfOk result (λ values. map view values.items ≡ row_of session word.now numbers.now) }
{
    let mut values = Vec::new(alloc);
    add_numbers(&mut values, &[session])?;
    add_word(alloc, &mut values, word)?;
    add_numbers(&mut values, numbers)?;
    Ok(values)
}

// A number, or the text's bytes as two digits each.
fn stored(alloc: Global, value: &Stored) -> Result<Value, Memory>
    ensures { IfOk result (λ v. view v ≡ value_data value.now) }
{
    match value {
        Stored::Num(number) => Ok(Value::from(*number)),
        Stored::Bytes(text) => Ok(Value::String(encode(alloc, text.as_slice())?)),
    }
}

fn optional(alloc: Global, value: &Option<Stored>) -> Result<Value, Memory>
    ensures { IfOk result (λ v. view v ≡ optional_value value.now) }
{
    match value {
        Some(value) => stored(alloc, value),
        None => Ok(Value::Null),
    }
}

fn pair(alloc: Global, key: u64, value: &Stored) -> Result<Value, Memory>
    ensures { IfOk result (λ v. view v ≡ pair_value (key, value.now)) }
{
    let told = stored(alloc, value)?;
    let mut values = Vec::new(alloc);
    values.push(Value::from(key))?;
    values.push(told)?;
    Ok(Value::Array(values))
}

// The pairs are added to a list of values.
fn add_pairs(alloc: Global, values: &mut Vec<Value>, pairs: &[(u64, Stored)]) -> Result<(), Memory>
    ensures { OnOk result (map view values.new.items ≡ map view values.old.items ++ map pair_value pairs.now) }
{
    for entry in pairs {
        values.push(pair(alloc, entry.0, &entry.1)?)?;
    }
    Ok(())
}

fn answer_value(alloc: Global, answer: &Answer) -> Result<Value, Memory>
    ensures { IfOk result (λ v. view v ≡ answer_data answer.now) }
{
    match answer {
        Answer::Value(value) => optional(alloc, value),
        Answer::Pairs(pairs) => {
            let mut values = Vec::new(alloc);
            add_pairs(alloc, &mut values, pairs.as_slice())?;
            Ok(Value::Array(values))
        }
        Answer::Added(found) => Ok(Value::Bool(*found)),
    }
}

fn name(alloc: Global, tx: TxId) -> Result<Value, Memory>
    ensures { IfOk result (λ v. view v ≡ name_data tx) }
{
    numbers(alloc, &[tx.run as u64, tx.session as u64, tx.serial])
}

// What a Put puts, behind its key.
fn put_row(alloc: Global, session: u64, key: u64, value: &Stored) -> Result<Vec<Value>, Memory>
    ensures { IfOk result (λ values. map view values.items ≡ row_of session (codes "put") (key ∷ []) ++ value_data value.now ∷ []) }
{
    let mut values = row(alloc, session, "put", &[key])?;
    values.push(stored(alloc, value)?)?;
    Ok(values)
}

// An operation, without its answer.
fn operation(alloc: Global, session: u64, op: &Op) -> Result<Vec<Value>, Memory>
    ensures { IfOk result (λ values. map view values.items ≡ operation_data session op.now) }
{
    match op {
        Op::Get(key) => row(alloc, session, "get", &[*key]),
        Op::Put(key, value) => put_row(alloc, session, *key, value),
        Op::Del(key) => row(alloc, session, "del", &[*key]),
        Op::Scan(low, high) => row(alloc, session, "scan", &[*low, *high]),
        Op::Add(key, by) => row(alloc, session, "add", &[*key, *by]),
    }
}

fn answered(alloc: Global, session: u64, op: &Op, answer: &Answer) -> Result<Vec<Value>, Memory>
    ensures { IfOk result (λ values. map view values.items ≡ operation_data session op.now ++ answer_data answer.now ∷ []) }
{
    let mut values = operation(alloc, session, op)?;
    values.push(answer_value(alloc, answer)?)?;
    Ok(values)
}

// A word and a transaction are added to a list of values.
fn add_named(alloc: Global, values: &mut Vec<Value>, word: &str, tx: TxId) -> Result<(), Memory>
    ensures { OnOk result (map view values.new.items ≡ map view values.old.items ++ string word.now ∷ name_data tx ∷ []) }
{
    add_word(alloc, values, word)?;
    values.push(name(alloc, tx)?)?;
    Ok(())
}

// A word and numbers are.
fn add_counted(
    alloc: Global,
    values: &mut Vec<Value>,
    word: &str,
    numbers: &[u64],
) -> Result<(), Memory>
    ensures { OnOk result (map view values.new.items ≡ map view values.old.items ++ string word.now ∷ map num numbers.now) }
{
    add_word(alloc, values, word)?;
    add_numbers(values, numbers)
}

fn add_why(alloc: Global, values: &mut Vec<Value>, why: NoWhy) -> Result<(), Memory>
    ensures { OnOk result (map view values.new.items ≡ map view values.old.items ++ why_data why) }
{
    match why {
        NoWhy::Doomed { tx } => add_named(alloc, values, "doomed", tx),
        NoWhy::Restarted { seen, now } => add_counted(alloc, values, "restarted", &[seen, now]),
    }
}

fn add_cause(alloc: Global, values: &mut Vec<Value>, cause: AbortCause) -> Result<(), Memory>
    ensures { OnOk result (map view values.new.items ≡ map view values.old.items ++ cause_data cause) }
{
    match cause {
        AbortCause::Asked => add_word(alloc, values, "asked"),
        AbortCause::Died { older } => add_named(alloc, values, "died", older),
        AbortCause::Predecessor { tx } => add_named(alloc, values, "predecessor", tx),
        AbortCause::NoVote { shard, why } => {
            add_counted(alloc, values, "no vote", &[shard as u64])?;
            add_why(alloc, values, why)
        }
        AbortCause::Restarted { shard, seen, now } => {
            add_counted(alloc, values, "restarted", &[shard as u64, seen, now])
        }
    }
}

fn aborted(alloc: Global, session: u64, cause: AbortCause) -> Result<Vec<Value>, Memory>
    ensures { IfOk result (λ values. map view values.items ≡ row_of session (codes "aborted") [] ++ cause_data cause) }
{
    let mut values = row(alloc, session, "aborted", &[])?;
    add_cause(alloc, &mut values, cause)?;
    Ok(values)
}

fn refusal_text(refusal: Refusal) -> &'static str
    ensures { result.now ≡ refusal_by refusal }
{
    match refusal {
        Refusal::Unknown => "no request",
        Refusal::NoSession => "no session",
        Refusal::Active => "a transaction is active",
        Refusal::NoTx => "no transaction is active",
        Refusal::NoRetry => "nothing to try again",
        Refusal::NoSavepoint => "no such savepoint",
        Refusal::Ended => "the session has ended",
        Refusal::TooLong => "the line is too long",
        Refusal::NoMemory => "no memory for the text",
    }
}

fn refused(alloc: Global, session: u64, refusal: Refusal) -> Result<Vec<Value>, Memory>
    ensures { IfOk result (λ values. map view values.items ≡ row_of session (codes "refused") [] ++ string (refusal_by refusal) ∷ []) }
{
    let mut values = row(alloc, session, "refused", &[])?;
    add_word(alloc, &mut values, refusal_text(refusal))?;
    Ok(values)
}

fn told(alloc: Global, session: u64, reply: &Reply) -> Result<Vec<Value>, Memory>
    ensures { IfOk result (λ values. map view values.items ≡ told_data session reply.now) }
{
    match reply {
        Reply::Begun { serial } => row(alloc, session, "begin", &[*serial]),
        Reply::Answered { op, answer } => answered(alloc, session, op, answer),
        Reply::Saved { number } => row(alloc, session, "save", &[*number]),
        Reply::WentBack { number } => row(alloc, session, "back", &[*number]),
        Reply::Committed { serial } => row(alloc, session, "committed", &[*serial]),
        Reply::Empty { serial } => row(alloc, session, "empty", &[*serial]),
        Reply::Aborted(cause) => aborted(alloc, session, *cause),
        Reply::Down { shard } => row(alloc, session, "down", &[*shard as u64]),
        Reply::Unsettled { shard } => row(alloc, session, "unsettled", &[*shard as u64]),
        Reply::Worn { at } => row(alloc, session, "worn", &[*at]),
        Reply::Memory => row(alloc, session, "memory", &[]),
        Reply::Refused(refusal) => refused(alloc, session, *refusal),
    }
}

// A value as compact JSON, with a line feed, is added to a text.
fn add_line(alloc: Global, text: &mut Vec<u8>, value: Value) -> Result<(), Memory>
    requires { has_float (view value) ≡ false }
    ensures ok { OnOk result (text.new.items ≡ text.old.items ++ line_of (view value)) }
    ensures err { OnErr result (text.new.items ≡ text.old.items) }
{
    let mut next = value.to_string(alloc)?;
    next.push('\n')?;
    text.extend_from_slice(next.as_bytes())
}

fn listed(values: Vec<Value>) -> Value
    ensures { view result ≡ list_of (map view values.items) }
{
    Value::Array(values)
}

/// The line of a session's reply is added to a text, which stays as it is where there is no memory for it.
pub fn add_reply(
    alloc: Global,
    text: &mut Vec<u8>,
    session: u64,
    reply: &Reply,
) -> Result<(), Memory>
    ensures ok { OnOk result (text.new.items ≡ text.old.items ++ reply_line session reply.now) }
    ensures err { OnErr result (text.new.items ≡ text.old.items) }
{
    let values = told(alloc, session, reply)?;
    add_line(alloc, text, listed(values))
}
