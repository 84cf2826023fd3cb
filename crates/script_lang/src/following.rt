// What a transaction does next.

ghost use Rattle.std.specs.Prelude.{◌≡◌, ◌++◌, ◌∷◌, [], ℕ, List, MatchOption, Some};
ghost use Rattle.clv_base.specs.declared.ops.Op.{Op as AnOp};
ghost use Rattle.clv_base.specs.declared.ops.Answer.{Answer as AnAnswer};
ghost use Rattle.clv_base.specs.Backs.{has_written};
ghost use Rattle.script_lang.specs.Bodies.{Action as AnAction};
ghost use Rattle.script_lang.specs.Savepoints.{upto_of};
ghost use Rattle.script_lang.specs.Following.{Way, at_start, one_done, saved, gone_back, puts, value_of as value_in};
ghost use Rattle.script_lang.specs.Places.{StandsAt, StepsTo, IsNext, OpsLeft, step_at, step_of};

use crate::actions::Action;
use clv_base::ops::{Answer, Op};
use clv_base::values::{Value, copy_of};

// What of a move is still to be done.
#[derive(Drop)]
pub enum Stage {
    // Nothing: the next line begins.
    AtLine,
    // The second look, after the first one found this.
    Second {
        from: u64,
        to: u64,
        amount: u64,
        found: Option<Value>,
    },
    Puts {
        one: Op,
        two: Op,
    },
    LastPut(Op),
}

/// What a transaction does next: an operation, a savepoint, or a going back to the savepoint of this number.
#[derive(Drop)]
pub enum Step {
    Operate(Op),
    Keep,
    GoBack(u64),
}

/// A transaction on its way through its lines: what it does next, given its answers so far. It keeps no answers and no savepoints, and each call
/// takes constant time and no memory.
#[derive(Drop)]
pub struct Following<'a> {
    stage: Stage,
    left: &'a [Action],
}

fn value_of(answer: &Answer) -> Option<Value>
    ensures { result ≡ value_in answer.now }
{
    match answer {
        Answer::Value(value) => copy_of(value),
        Answer::Pairs(_) | Answer::Added(_) => None,
    }
}

// The two puts of a move, where there are any.
fn puts_of(
    from: u64,
    to: u64,
    amount: u64,
    source: &Option<Value>,
    target: &Option<Value>,
) -> Option<(Op, Op)>
    ensures { MatchOption result (puts from to amount source.now target.now ≡ []) (λ p. puts from to amount source.now target.now ≡ p.0 ∷ p.1 ∷ []) }
{
    let (Some(Value::Num(a)), Some(Value::Num(b))) = (source, target) else {
        return None;
    };
    if amount > *a {
        return None;
    }
    match b.checked_add(amount) {
        Some(sum) => Some((
            Op::Put(from, Value::Num(*a - amount)),
            Op::Put(to, Value::Num(sum)),
        )),
        None => None,
    }
}

// What the lines that are left begin with.
fn first_step(left: &[Action]) -> Option<Step>
    ensures { result ≡ step_at Stage.AtLine left.now }
{
    match left.split_first() {
        Some((Action::Do(op), _)) => Some(Step::Operate(op.op())),
        Some((Action::Move { from, .. }, _)) => Some(Step::Operate(Op::Get(*from))),
        Some((Action::Save, _)) => Some(Step::Keep),
        Some((Action::Back(number), _)) => Some(Step::GoBack(*number)),
        None => None,
    }
}

fn next_step(stage: &Stage, left: &[Action]) -> Option<Step>
    ensures { result ≡ step_at stage.now left.now }
{
    match stage {
        Stage::AtLine => first_step(left),
        Stage::Second { to, .. } => Some(Step::Operate(Op::Get(*to))),
        Stage::Puts { one, .. } => Some(Step::Operate(one.copy())),
        Stage::LastPut(two) => Some(Step::Operate(two.copy())),
    }
}

// The first operation of a line was answered.
fn begun<'a>(left: &'a [Action], answer: &Answer) -> (Stage, &'a [Action])
    ensures { StepsTo Stage.AtLine left.now answer.now result.0 result.1.now }
{
    match left.split_first() {
        Some((Action::Do(_), behind)) => (Stage::AtLine, behind),
        Some((Action::Move { from, to, amount }, behind)) => {
            let found = value_of(answer);
            let stage = Stage::Second {
                from: *from,
                to: *to,
                amount: *amount,
                found,
            };
            (stage, behind)
        }
        _ => (Stage::AtLine, left),
    }
}

// What is left of a move after these looks.
fn looked_twice(
    from: u64,
    to: u64,
    amount: u64,
    source: &Option<Value>,
    target: &Option<Value>,
) -> Stage
    ensures { OpsLeft (puts from to amount source.now target.now) result }
{
    match puts_of(from, to, amount, source, target) {
        Some((one, two)) => Stage::Puts { one, two },
        None => Stage::AtLine,
    }
}

impl<'a> Following<'a> {
    /// Before the first of these lines.
    pub fn new(lines: &'a [Action]) -> Following<'a>
        ensures { StandsAt lines.now [] at_start result }
    {
        Following {
            stage: Stage::AtLine,
            left: lines,
        }
    }

    /// What is next; none where each line is done.
    pub fn next(&self) -> Option<Step>
        ensures step { result ≡ step_of self.now }
        ensures next { (lines : List AnAction) (answers : List AnAnswer) (way : Way) → StandsAt lines answers way self.now → IsNext lines answers way result }
    {
        next_step(&self.stage, self.left)
    }

    // Goes one operation further.
    fn step(&mut self, answer: &Answer)
        ensures { StepsTo self.old.stage self.old.left.now answer.now self.new.stage self.new.left.now }
    {
        match &self.stage {
            Stage::AtLine => {
                let (stage, left) = begun(self.left, answer);
                self.stage = stage;
                self.left = left;
            }
            Stage::Second {
                from,
                to,
                amount,
                found,
            } => {
                let stage = looked_twice(*from, *to, *amount, found, &value_of(answer));
                self.stage = stage;
            }
            Stage::Puts { two, .. } => {
                let last = two.copy();
                self.stage = Stage::LastPut(last);
            }
            Stage::LastPut(_) => self.stage = Stage::AtLine,
        }
    }

    /// Takes the answer of the operation that was next.
    pub fn answered(&mut self, answer: &Answer)
        ensures { (lines : List AnAction) (answers : List AnAnswer) (way : Way) (op : AnOp) → StandsAt lines answers way self.old → step_of self.old ≡ Some (Step.Operate op) → StandsAt lines (answers ++ answer.now ∷ []) (one_done (has_written op answer.now) way) self.new }
    {
        self.step(answer);
    }

    /// Goes past a savepoint, or a going back, which was next.
    pub fn passed(&mut self)
        ensures saved { (lines : List AnAction) (answers : List AnAnswer) (way : Way) → StandsAt lines answers way self.old → step_of self.old ≡ Some Step.Keep → StandsAt lines answers (saved way) self.new }
        ensures back { (lines : List AnAction) (answers : List AnAnswer) (way : Way) (i : ℕ) → StandsAt lines answers way self.old → step_of self.old ≡ Some (Step.GoBack i) → StandsAt lines answers (gone_back i (upto_of i way.saves.standing) way) self.new }
    {
        if let Some((_, behind)) = self.left.split_first() {
            self.left = behind;
        }
    }
}
