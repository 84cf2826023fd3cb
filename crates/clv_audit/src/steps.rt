// One transaction's acts, one after another.

ghost use Rattle.std.specs.Prelude.{◌≡◌, ◌<◌, ◌↔◌, [], ◌∷◌, ◌++◌, true, vec_len, IfOk, OnOk, IsTrue};
ghost use Rattle.clv_base.specs.declared.ops.Answer.{Answer as AnswerType};
ghost use Rattle.clv_base.specs.Folding.{IsRising};
ghost use Rattle.clv_base.specs.Maps.{op_answer, op_after, acts_after, acts_answers};
ghost use Rattle.clv_base.specs.Backs.{are_numbered};
ghost use Rattle.report_reading.specs.Told.{numbered};
ghost use Rattle.report_reading.specs.Standing.{Rise};
ghost use Rattle.clv_audit.specs.declared.steps.Step.{Step as StepType};
ghost use Rattle.clv_audit.specs.Right.{answers_of};
ghost use Rattle.clv_audit.specs.Keeping.{undone, undone_by, steps_above, steps_up_to, numbers_of, written_key, IsNextStep, ActGoes};

use crate::Memory;
use clv_base::kept::KeptOp;
use clv_base::lists::Pairs;
use clv_base::ops::{Answer, Op};
use clv_base::values::{Value, are_same};
use history_replay::KeyMap;
use session_books::done::{Done, Held};
use std::alloc::Global;

/// What an act wrote: a key, and the value that it had before, if any.
#[derive(Drop)]
pub struct Written {
    pub key: u64,
    pub before: Option<Value>,
}

/// An act that still stands, with its number.
#[derive(Drop)]
pub struct Step {
    pub number: u64,
    pub written: Option<Written>,
}

fn same_pair(one: &(u64, Value), other: &(u64, Value)) -> bool
    ensures { IsTrue result ↔ (one.now ≡ other.now) }
{
    one.0 == other.0 && one.1.is(&other.1)
}

fn same_pairs(told: &[(u64, Value)], found: &[(u64, Value)]) -> bool
    ensures { IsTrue result ↔ (told.now ≡ found.now) }
{
    if told.len() != found.len() {
        return false;
    }
    for i in 0..told.len() {
        if !same_pair(&told[i], &found[i]) {
            return false;
        }
    }
    true
}

fn was_value(told: &Option<Value>, found: &Answer) -> bool
    ensures { IsTrue result ↔ (AnswerType.Value told.now ≡ found.now) }
{
    match found {
        Answer::Value(found) => are_same(told, found),
        _ => false,
    }
}

fn was_pairs(told: &Pairs, found: &Answer) -> bool
    ensures { IsTrue result ↔ (AnswerType.Pairs told.now ≡ found.now) }
{
    match found {
        Answer::Pairs(found) => same_pairs(told.as_slice(), found.as_slice()),
        _ => false,
    }
}

fn was_added(told: bool, found: &Answer) -> bool
    ensures { IsTrue result ↔ (AnswerType.Added told ≡ found.now) }
{
    match found {
        Answer::Added(found) => told == *found,
        _ => false,
    }
}

// The key that an operation may write.
fn key_of(op: &Op) -> Option<u64>
    ensures { result ≡ written_key op.now }
{
    match op {
        Op::Put(key, _) => Some(*key),
        Op::Del(key) => Some(*key),
        Op::Add(key, _) => Some(*key),
        Op::Get(_) => None,
        Op::Scan(_, _) => None,
    }
}

// What an operation is about to write, if anything.
fn to_be_written(pairs: &KeyMap, op: &Op) -> Option<Written>
    requires { IsRising pairs.now }
    ensures { undone_by result (op_after op.now pairs.now) ≡ pairs.now }
{
    match key_of(op) {
        Some(key) => Some(Written {
            key,
            before: pairs.get(key),
        }),
        None => None,
    }
}

// Takes back what the last act wrote, and forgets it.
fn take_back(pairs: &mut KeyMap, steps: &mut Vec<Step>) -> Result<(), Memory>
    requires { 0 < vec_len steps.old }
    ensures { OnOk result ((s : StepType) × (steps.old.items ≡ steps.new.items ++ s ∷ []) × (pairs.new ≡ undone_by s.written pairs.old)) }
{
    let Some(step) = steps.pop() else {
        return Ok(());
    };
    match step.written {
        Some(written) => pairs.set_to(written.key, written.before),
        None => Ok(()),
    }
}

// Takes back what the acts with greater numbers wrote, the last one first, and forgets them.
fn go_back(pairs: &mut KeyMap, steps: &mut Vec<Step>, upto: u64) -> Result<(), Memory>
    requires { Rise 0 (numbers_of steps.old.items) }
    ensures pairs { OnOk result (pairs.new ≡ undone (steps_above upto steps.old.items) pairs.old) }
    ensures steps { OnOk result (steps.new.items ≡ steps_up_to upto steps.old.items) }
{
    while let Some(last) = steps.last() {
        if last.number <= upto {
            return Ok(());
        }
        take_back(pairs, steps)?;
    }
    Ok(())
}

// Does an operation, and keeps what it wrote.
fn operate(
    alloc: Global,
    pairs: &mut KeyMap,
    steps: &mut Vec<Step>,
    number: u64,
    op: &KeptOp,
) -> Result<Answer, Memory>
    requires { IsRising pairs.old }
    ensures answer { IfOk result (λ answer. answer ≡ op_answer op.now pairs.old) }
    ensures after { OnOk result (pairs.new ≡ op_after op.now pairs.old) }
    ensures step { OnOk result (IsNextStep number pairs.old pairs.new steps.old.items steps.new.items) }
{
    let op = op.op();
    let written = to_be_written(pairs, &op);
    let answer = pairs.apply(alloc, &op)?;
    steps.push(Step { number, written })?;
    Ok(answer)
}

// An operation with its answer, or a going back; whether the answer is the map's. After `false` the map and the acts are of no use.
fn act(
    alloc: Global,
    pairs: &mut KeyMap,
    steps: &mut Vec<Step>,
    number: u64,
    done: &Done,
) -> Result<bool, Memory>
    requires rises { IsRising pairs.old }
    requires steps_rise { Rise 0 (numbers_of steps.old.items) }
    ensures { IfOk result (λ right. ActGoes done.now number pairs.old steps.old.items right pairs.new steps.new.items) }
{
    match done.held() {
        Held::Valued(op, told) => Ok(was_value(told, &operate(alloc, pairs, steps, number, op)?)),
        Held::Listed(op, told) => Ok(was_pairs(told, &operate(alloc, pairs, steps, number, op)?)),
        Held::Added(op, told) => Ok(was_added(*told, &operate(alloc, pairs, steps, number, op)?)),
        Held::Back(upto) => {
            go_back(pairs, steps, *upto)?;
            steps.push(Step {
                number,
                written: None,
            })?;
            Ok(true)
        }
    }
}

/// Whether the acts of a transaction have the answers that they have from this map, and the map after them if so. Time is linear in what is read
/// and written, but for the map's logarithm.
pub fn acts_are_right(alloc: Global, pairs: &mut KeyMap, acts: &[Done]) -> Result<bool, Memory>
    requires rises { IsRising pairs.old }
    requires numbered { are_numbered 0 [] (numbered acts.now) ≡ true }
    ensures right { IfOk result (λ right. IsTrue right ↔ (acts_answers (numbered acts.now) pairs.old [] ≡ answers_of acts.now)) }
    ensures after { IfOk result (λ right. right ≡ true → (pairs.new ≡ acts_after (numbered acts.now) pairs.old []) × IsRising pairs.new) }
{
    let mut steps = Vec::new(alloc);
    let mut number: u64 = 0;
    for done in acts {
        number += 1;
        if !act(alloc, pairs, &mut steps, number, done)? {
            return Ok(false);
        }
    }
    Ok(true)
}
