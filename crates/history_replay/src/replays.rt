// Transactions run one after another.

ghost use Rattle.std.specs.Prelude.{◌≡◌, map, false, [], IfOk, OnOk};
ghost use Rattle.clv_base.specs.Maps.{act_after, act_answers, acts_after, acts_answers, map_now, map_up_to as up_to, replay_answers, replay_map};
ghost use Rattle.clv_base.specs.Backs.{answers_by};
ghost use Rattle.history_replay.specs.Acting.{acts_of, doing, some_back, trail_over};

use crate::{Act, KeyMap, Memory};
use clv_base::ops::Answer;
use std::alloc::Global;

fn any_back(acts: &[Act]) -> bool
    ensures { result ≡ some_back acts.now }
{
    for act in acts {
        if act.goes_back() {
            return true;
        }
    }
    false
}

// Does the acts of a transaction that never goes back.
fn run_operations(alloc: Global, pairs: &mut KeyMap, acts: &[Act]) -> Result<Vec<Answer>, Memory>
    requires { some_back acts.now ≡ false }
    ensures answers { IfOk result (λ answers. answers.items ≡ acts_answers (acts_of acts.now) pairs.old []) }
    ensures after { OnOk result (pairs.new ≡ acts_after (acts_of acts.now) pairs.old []) }
{
    let mut answers = Vec::new(alloc);
    for act in acts {
        if let Act::Operates { op, .. } = act {
            answers.push(pairs.apply(alloc, op)?)?;
        }
    }
    Ok(answers)
}

// The map after the last of these acts with a number up to this, or the one at the beginning.
fn map_up_to<'a>(start: &'a KeyMap, trail: &'a [(u64, KeyMap)], upto: u64) -> &'a KeyMap
    ensures { result.now ≡ up_to upto start.now (trail_over [] trail.now) }
{
    let mut found = start;
    for mark in trail {
        if mark.0 <= upto {
            found = &mark.1;
        }
    }
    found
}

// Does one act of a transaction that began with this map and has this trail.
fn act_once(
    alloc: Global,
    pairs: &mut KeyMap,
    start: &KeyMap,
    trail: &[(u64, KeyMap)],
    act: &Act,
) -> Result<Option<Answer>, Memory>
    requires { pairs.old ≡ map_now start.now (trail_over [] trail.now) }
    ensures answer { IfOk result (λ answer. answers_by answer ≡ act_answers (doing act.now) pairs.old) }
    ensures after { OnOk result (pairs.new ≡ act_after (doing act.now) start.now (trail_over [] trail.now)) }
{
    match act {
        Act::Operates { op, .. } => Ok(Some(pairs.apply(alloc, op)?)),
        Act::GoesBack { upto, .. } => {
            *pairs = map_up_to(start, trail, *upto).copy()?;
            Ok(None)
        }
    }
}

// Does the acts of one transaction, and keeps the map after each of them.
fn run_acts(alloc: Global, pairs: &mut KeyMap, acts: &[Act]) -> Result<Vec<Answer>, Memory>
    ensures answers { IfOk result (λ answers. answers.items ≡ acts_answers (acts_of acts.now) pairs.old []) }
    ensures after { OnOk result (pairs.new ≡ acts_after (acts_of acts.now) pairs.old []) }
{
    let start = pairs.copy()?;
    let mut trail = Vec::new(alloc);
    let mut answers = Vec::new(alloc);
    for act in acts {
        if let Some(answer) = act_once(alloc, pairs, &start, &trail, act)? {
            answers.push(answer)?;
        }
        trail.push((act.number(), pairs.copy()?))?;
    }
    Ok(answers)
}

fn run_transaction(alloc: Global, pairs: &mut KeyMap, acts: &[Act]) -> Result<Vec<Answer>, Memory>
    ensures answers { IfOk result (λ answers. answers.items ≡ acts_answers (acts_of acts.now) pairs.old []) }
    ensures after { OnOk result (pairs.new ≡ acts_after (acts_of acts.now) pairs.old []) }
{
    if any_back(acts) {
        run_acts(alloc, pairs, acts)
    } else {
        run_operations(alloc, pairs, acts)
    }
}

fn run_transactions(
    alloc: Global,
    pairs: &mut KeyMap,
    transactions: &[Vec<Act>],
) -> Result<Vec<Vec<Answer>>, Memory>
    ensures answers { IfOk result (λ answers. map (λ a. a.items) answers.items ≡ replay_answers pairs.old (map (λ t. acts_of t.items) transactions.now)) }
    ensures after { OnOk result (pairs.new ≡ replay_map pairs.old (map (λ t. acts_of t.items) transactions.now)) }
{
    let mut answers = Vec::new(alloc);
    for transaction in transactions {
        answers.push(run_transaction(alloc, pairs, transaction)?)?;
    }
    Ok(answers)
}

/// Runs the transactions, each a list of acts, one after another from a map. Gives the answers of each, and the last map. An operation takes
/// time logarithmic in the map, and a scan time linear in what it answers beside that; of a transaction that goes back each act takes time
/// linear in the map, and the room of one.
pub fn replay(
    alloc: Global,
    pairs: KeyMap,
    transactions: &[Vec<Act>],
) -> Result<(Vec<Vec<Answer>>, KeyMap), Memory>
    ensures answers { IfOk result (λ r. map (λ a. a.items) (r.0).items ≡ replay_answers pairs (map (λ t. acts_of t.items) transactions.now)) }
    ensures last { IfOk result (λ r. r.1 ≡ replay_map pairs (map (λ t. acts_of t.items) transactions.now)) }
{
    let mut last = pairs;
    let answers = run_transactions(alloc, &mut last, transactions)?;
    Ok((answers, last))
}
