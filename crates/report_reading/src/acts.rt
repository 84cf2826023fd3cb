// What a transaction did, as its line tells it.

ghost use Rattle.std.specs.Prelude.{◌≡◌, ◌⊎◌, ◌∷◌, ◌++◌, [], List, true, map, codes, IfOk, MatchOption};
ghost use Rattle.std.specs.List.{list_all};
ghost use Rattle.serde_json.specs.Data.{string};
ghost use Rattle.serde_json.specs.View.{view};
ghost use Rattle.clv_base.specs.declared.ops.Op.{Op as OpType};
ghost use Rattle.clv_base.specs.Backs.{are_numbered as are_numbered_by};
ghost use Rattle.session_books.specs.Done.{Done as DoneType};
ghost use Rattle.report_text.specs.Lines.{list as list_of, act as act_value, acts as acts_values};
ghost use Rattle.report_reading.specs.Told.{can_be_done, can_be_acts, numbered};
ghost use Rattle.report_reading.specs.Finding.{Finds};
ghost use Rattle.report_reading.specs.Standing.{Rise, Follows, is_among, up_to};

use crate::Memory;
use crate::values::{is_the, number_in, optional_in, pairs_in, stored_in};
use clv_base::kept::KeptOp;
use clv_base::ops::{Answer, Op};
use serde_json::Value;
use session_books::books::Operations;
use session_books::done::{Done, Held};
use std::alloc::Global;

fn back_in(word: &Value, upto: &Value) -> Option<Done>
    ensures { Finds can_be_done act_value result (list_of (view word.now ∷ view upto.now ∷ [])) }
{
    if !is_the(word, "back") {
        return None;
    }
    match number_in(upto) {
        Some(upto) => Some(Done::went_back(upto)),
        None => None,
    }
}

// The operation on a key that is a word alone.
fn keyed(word: &Value, key: u64) -> Option<Op>
    ensures { MatchOption result ((view word.now ≡ string (codes "get") → ⊥) × (view word.now ≡ string (codes "del") → ⊥)) (λ op. ((op ≡ OpType.Get key) × (view word.now ≡ string (codes "get"))) ⊎ ((op ≡ OpType.Del key) × (view word.now ≡ string (codes "del")))) }
{
    if is_the(word, "get") {
        return Some(Op::Get(key));
    }
    if is_the(word, "del") {
        return Some(Op::Del(key));
    }
    None
}

// A key is read, or taken away.
fn keyed_in(
    alloc: Global,
    word: &Value,
    key: &Value,
    answer: &Value,
) -> Result<Option<Done>, Memory>
    ensures { IfOk result (λ found. Finds can_be_done act_value found (list_of (view word.now ∷ view key.now ∷ view answer.now ∷ []))) }
{
    let Some(key) = number_in(key) else {
        return Ok(None);
    };
    let Some(before) = optional_in(alloc, answer)? else {
        return Ok(None);
    };
    match keyed(word, key) {
        Some(op) => Ok(Some(Done::did(KeptOp::new(op), Answer::Value(before)))),
        None => Ok(None),
    }
}

fn put_in(alloc: Global, key: &Value, value: &Value, answer: &Value) -> Result<Option<Done>, Memory>
    ensures { IfOk result (λ found. Finds can_be_done act_value found (list_of (string (codes "put") ∷ view key.now ∷ view value.now ∷ view answer.now ∷ []))) }
{
    let Some(key) = number_in(key) else {
        return Ok(None);
    };
    let Some(value) = stored_in(alloc, value)? else {
        return Ok(None);
    };
    match optional_in(alloc, answer)? {
        Some(before) => Ok(Some(Done::did(
            KeptOp::new(Op::Put(key, value)),
            Answer::Value(before),
        ))),
        None => Ok(None),
    }
}

fn scan_in(alloc: Global, low: &Value, high: &Value, answer: &Value) -> Result<Option<Done>, Memory>
    ensures { IfOk result (λ found. Finds can_be_done act_value found (list_of (string (codes "scan") ∷ view low.now ∷ view high.now ∷ view answer.now ∷ []))) }
{
    let Some(low) = number_in(low) else {
        return Ok(None);
    };
    let Some(high) = number_in(high) else {
        return Ok(None);
    };
    if high < low {
        return Ok(None);
    }
    match pairs_in(alloc, answer)? {
        Some(pairs) => Ok(Some(Done::did(KeptOp::new(Op::Scan(low, high)), Answer::Pairs(pairs)))),
        None => Ok(None),
    }
}

fn add_in(key: &Value, by: &Value, answer: &Value) -> Option<Done>
    ensures { Finds can_be_done act_value result (list_of (string (codes "add") ∷ view key.now ∷ view by.now ∷ view answer.now ∷ [])) }
{
    let Some(key) = number_in(key) else {
        return None;
    };
    let Some(by) = number_in(by) else {
        return None;
    };
    match answer.as_bool() {
        Some(found) => Some(Done::did(KeptOp::new(Op::Add(key, by)), Answer::Added(found))),
        None => None,
    }
}

// A word with two operands, and what was answered.
fn twofold_in(
    alloc: Global,
    word: &Value,
    first: &Value,
    second: &Value,
    answer: &Value,
) -> Result<Option<Done>, Memory>
    ensures { IfOk result (λ found. Finds can_be_done act_value found (list_of (view word.now ∷ view first.now ∷ view second.now ∷ view answer.now ∷ []))) }
{
    if is_the(word, "put") {
        return put_in(alloc, first, second, answer);
    }
    if is_the(word, "scan") {
        return scan_in(alloc, first, second, answer);
    }
    if is_the(word, "add") {
        return Ok(add_in(first, second, answer));
    }
    Ok(None)
}

fn row_in(alloc: Global, values: &[Value]) -> Result<Option<Done>, Memory>
    ensures { IfOk result (λ found. Finds can_be_done act_value found (list_of (map view values.now))) }
{
    if values.len() == 2 {
        return Ok(back_in(&values[0], &values[1]));
    }
    if values.len() == 3 {
        return keyed_in(alloc, &values[0], &values[1], &values[2]);
    }
    if values.len() == 4 {
        return twofold_in(alloc, &values[0], &values[1], &values[2], &values[3]);
    }
    Ok(None)
}

// An operation with its answer, or a going back.
fn act_in(alloc: Global, value: &Value) -> Result<Option<Done>, Memory>
    ensures { IfOk result (λ found. Finds can_be_done act_value found (view value.now)) }
{
    match value.as_array() {
        Some(values) => row_in(alloc, values.as_slice()),
        None => Ok(None),
    }
}

fn each_act(alloc: Global, values: &[Value]) -> Result<Option<Vec<Done>>, Memory>
    ensures { IfOk result (λ found. MatchOption found ((ds : List DoneType) → list_all can_be_done ds ≡ true → map act_value ds ≡ map view values.now → ⊥) (λ ds. (list_all can_be_done ds.items ≡ true) × (map act_value ds.items ≡ map view values.now))) }
{
    let mut acts = Vec::new(alloc);
    for value in values {
        match act_in(alloc, value)? {
            Some(act) => acts.push(act)?,
            None => return Ok(None),
        }
    }
    Ok(Some(acts))
}

// Of numbers that rise, those up to this one stay.
fn drop_above(standing: &mut Vec<u64>, upto: u64)
    requires { Rise 0 standing.old.items }
    ensures { standing.new.items ≡ up_to upto standing.old.items }
{
    while let Some(last) = standing.last() {
        if *last <= upto {
            return;
        }
        standing.pop();
    }
}

// Goes back to an act, if it is one of those to which that may still be; those behind it can't be gone back to any more.
fn went_back(standing: &mut Vec<u64>, upto: u64) -> bool
    requires { Rise 0 standing.old.items }
    ensures may { result ≡ is_among upto standing.old.items }
    ensures left { standing.new.items ≡ up_to upto standing.old.items }
{
    drop_above(standing, upto);
    match standing.last() {
        Some(last) => *last == upto,
        None => false,
    }
}

fn add(standing: &mut Vec<u64>, number: u64) -> Result<bool, Memory>
    ensures { IfOk result (λ may. (may ≡ true) × (standing.new.items ≡ standing.old.items ++ number ∷ [])) }
{
    standing.push(number)?;
    Ok(true)
}

// One act more. After `false` the numbers are of no use.
fn follow(standing: &mut Vec<u64>, number: u64, done: &Done) -> Result<bool, Memory>
    requires { Rise 0 standing.old.items }
    ensures { IfOk result (λ may. Follows done.now number standing.old.items may standing.new.items) }
{
    match done.held() {
        Held::Valued(_, _) => add(standing, number),
        Held::Listed(_, _) => add(standing, number),
        Held::Added(_, _) => add(standing, number),
        Held::Back(upto) => {
            if !went_back(standing, *upto) {
                return Ok(false);
            }
            add(standing, number)
        }
    }
}

// Whether each going back is to where the transaction still could go: to its beginning, or to after an act that no earlier one went back over.
fn are_numbered(alloc: Global, acts: &[Done]) -> Result<bool, Memory>
    ensures { IfOk result (λ are. are ≡ are_numbered_by 0 [] (numbered acts.now)) }
{
    let mut standing = Vec::new(alloc);
    standing.push(0)?;
    let mut number: u64 = 1;
    for done in acts {
        if !follow(&mut standing, number, done)? {
            return Ok(false);
        }
        number += 1;
    }
    Ok(true)
}

/// What a transaction did, one act at least.
pub fn acts_in(alloc: Global, value: &Value) -> Result<Option<Operations>, Memory>
    ensures { IfOk result (λ found. Finds can_be_acts (λ ds. list_of (acts_values ds)) found (view value.now)) }
{
    let Some(values) = value.as_array() else {
        return Ok(None);
    };
    let Some(acts) = each_act(alloc, values.as_slice())? else {
        return Ok(None);
    };
    if acts.is_empty() {
        return Ok(None);
    }
    if !are_numbered(alloc, acts.as_slice())? {
        return Ok(None);
    }
    Ok(Some(Operations::new(acts)))
}
