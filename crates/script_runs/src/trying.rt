// One try of a transaction.
ghost use Rattle.std.specs.Prelude.{◌≡◌, ◌<◌, ℕ, Bool, true, List, Some, IfOk, vec_len, vec_capacity};
ghost use Rattle.std.specs.List.{list_all};
ghost use Rattle.clv_base.specs.declared.names.TxId.{TxId};
ghost use Rattle.clv_base.specs.declared.names.Birth.{Birth as BirthIs};
ghost use Rattle.script_lang.specs.declared.actions.Action.{Action as AnAction};
ghost use Rattle.script_lang.specs.Laws.{is_narrow};
ghost use Rattle.script_lang.specs.Places.{step_of};
ghost use Rattle.clv_base.specs.Shards.{are_splits};
ghost use Rattle.script_runs.specs.Seen.{Active, untouched, Seen, Going, going_at_start, Keeps};
ghost use Rattle.script_runs.specs.Told.{has_range, GivenUp, IsActiveWhereDown, LineAborts};
ghost use Rattle.script_runs.specs.Tried.{OnStop, OnRefusal};
ghost use Rattle.script_runs.specs.Lines.{Doing, LinesTold, StepTold};
ghost use Rattle.script_runs.specs.Keeping.{TouchedBy, is_asked as is_asked_in, AddsRows, row_told, CommitKept, EndMade, TriedKept};

use crate::calls::{SessionCalls, Stage};
use crate::fates::{Fate, fate_of};
use crate::{StopCause, TryEnd};
use clv_base::kept::KeptOp;
use clv_base::names::TxId;
use clv_base::ops::Op;
use script_lang::{Action, Ending, Following, Step, Transaction};
use session_books::books::{Book, Operations, Row};
use session_books::done::Done;
use std::alloc::Global;
use std::sync::Wait;

// Memory was wanting between two acts.
fn lack<C: SessionCalls>(session: &C) -> TryEnd
    ensures { result ≡ TryEnd.Stopped StopCause.Memory }
{
    session.tell_lack();
    TryEnd::Stopped(StopCause::Memory)
}

// The operation that is next.
fn operate<C: SessionCalls>(
    alloc: Global,
    session: &mut C,
    following: &mut Following<'_>,
    op: Op,
    done: &mut Vec<Done>,
) -> Result<(), TryEnd>
    requires session { C.holds session.old }
    requires doing { (tx : TxId) × (birth : BirthIs) × (lines : List AnAction) × (u : Seen) × Doing tx birth lines u (C.seen session.old) (C.going session.old) following.old done.old.items }
    requires next { step_of following.old ≡ Some (Step.Operate op) }
    requires range { has_range op ≡ true }
    requires room { vec_len done.old < vec_capacity done.old }
    ensures session { C.holds session.new }
    ensures base { C.base session.new ≡ C.base session.old }
    ensures misses { Keeps (C.missed session.old) (C.missed session.new) }
    ensures told { (tx : TxId) (birth : BirthIs) (lines : List AnAction) (u : Seen) → Doing tx birth lines u (C.seen session.old) (C.going session.old) following.old done.old.items → StepTold tx birth lines result u (C.seen session.new) (C.going session.new) following.new done.new.items }
    ensures grounds { OnRefusal (C.grounds session.new) result }
{
    match session.operate(alloc, &op) {
        Ok(answer) => {
            following.answered(&answer);
            done.push_reserved(Done::did(KeptOp::new(op), answer));
            Ok(())
        }
        Err(end) => Err(end),
    }
}

// The savepoint that is next.
fn save<C: SessionCalls>(
    session: &mut C,
    following: &mut Following<'_>,
    done: &[Done],
) -> Result<(), TryEnd>
    requires session { C.holds session.old }
    requires doing { (tx : TxId) × (birth : BirthIs) × (lines : List AnAction) × (u : Seen) × Doing tx birth lines u (C.seen session.old) (C.going session.old) following.old done.now }
    requires next { step_of following.old ≡ Some Step.Keep }
    ensures session { C.holds session.new }
    ensures base { C.base session.new ≡ C.base session.old }
    ensures misses { Keeps (C.missed session.old) (C.missed session.new) }
    ensures told { (tx : TxId) (birth : BirthIs) (lines : List AnAction) (u : Seen) → Doing tx birth lines u (C.seen session.old) (C.going session.old) following.old done.now → StepTold tx birth lines result u (C.seen session.new) (C.going session.new) following.new done.now }
    ensures grounds { OnRefusal (C.grounds session.new) result }
{
    if session.save().is_err() {
        return Err(lack(session));
    }
    following.passed();
    Ok(())
}

// The going back that is next. One to a savepoint that doesn't stand, which no script has, does nothing.
fn go_back<C: SessionCalls>(
    alloc: Global,
    session: &mut C,
    following: &mut Following<'_>,
    number: u64,
    done: &mut Vec<Done>,
) -> Result<(), TryEnd>
    requires session { C.holds session.old }
    requires doing { (tx : TxId) × (birth : BirthIs) × (lines : List AnAction) × (u : Seen) × Doing tx birth lines u (C.seen session.old) (C.going session.old) following.old done.old.items }
    requires next { step_of following.old ≡ Some (Step.GoBack number) }
    requires room { vec_len done.old < vec_capacity done.old }
    ensures session { C.holds session.new }
    ensures base { C.base session.new ≡ C.base session.old }
    ensures misses { Keeps (C.missed session.old) (C.missed session.new) }
    ensures told { (tx : TxId) (birth : BirthIs) (lines : List AnAction) (u : Seen) → Doing tx birth lines u (C.seen session.old) (C.going session.old) following.old done.old.items → StepTold tx birth lines result u (C.seen session.new) (C.going session.new) following.new done.new.items }
    ensures grounds { OnRefusal (C.grounds session.new) result }
{
    if !session.has_savepoint(number) {
        following.passed();
        return Ok(());
    }
    match session.go_back(alloc, number) {
        Ok(Some(upto)) => {
            following.passed();
            done.push_reserved(Done::went_back(upto));
            Ok(())
        }
        Ok(None) => {
            following.passed();
            Ok(())
        }
        Err(end) => Err(end),
    }
}

// What is next. There is room for what is kept of it before it is done, as none may be wanting behind it.
fn do_step<C: SessionCalls>(
    alloc: Global,
    session: &mut C,
    following: &mut Following<'_>,
    step: Step,
    done: &mut Vec<Done>,
) -> Result<(), TryEnd>
    requires session { C.holds session.old }
    requires doing { (tx : TxId) × (birth : BirthIs) × (lines : List AnAction) × (u : Seen) × (list_all is_narrow lines ≡ true) × Doing tx birth lines u (C.seen session.old) (C.going session.old) following.old done.old.items }
    requires next { step_of following.old ≡ Some step }
    ensures session { C.holds session.new }
    ensures base { C.base session.new ≡ C.base session.old }
    ensures misses { Keeps (C.missed session.old) (C.missed session.new) }
    ensures told { (tx : TxId) (birth : BirthIs) (lines : List AnAction) (u : Seen) → Doing tx birth lines u (C.seen session.old) (C.going session.old) following.old done.old.items → StepTold tx birth lines result u (C.seen session.new) (C.going session.new) following.new done.new.items }
    ensures grounds { OnRefusal (C.grounds session.new) result }
{
    if done.reserve(1).is_err() {
        return Err(lack(session));
    }
    match step {
        Step::Operate(op) => operate(alloc, session, following, op, done),
        Step::Keep => save(session, following, done),
        Step::GoBack(number) => go_back(alloc, session, following, number, done),
    }
}

// What its lines ask for, until each is done; what was done is kept.
fn do_lines<R: Wait, C: SessionCalls>(
    rt: &R,
    alloc: Global,
    session: &mut C,
    lines: &[Action],
) -> Result<Operations, TryEnd>
    requires session { C.holds session.old }
    requires begun { (tx : TxId) × (birth : BirthIs) × ((C.seen session.old).standing ≡ Active tx birth 0 untouched) }
    requires fresh { C.going session.old ≡ Some going_at_start }
    requires narrow { list_all is_narrow lines.now ≡ true }
    ensures session { C.holds session.new }
    ensures base { C.base session.new ≡ C.base session.old }
    ensures misses { Keeps (C.missed session.old) (C.missed session.new) }
    ensures told { (tx : TxId) (birth : BirthIs) → (C.seen session.old).standing ≡ Active tx birth 0 untouched → LinesTold tx birth lines.now result (C.seen session.old) (C.seen session.new) }
    ensures whole { IfOk result (λ done. (g : Going) × (C.going session.new ≡ Some g)) }
    ensures grounds { OnRefusal (C.grounds session.new) result }
{
    let mut following = Following::new(lines);
    let mut done = Vec::new(alloc);
    for _ in rt.forever() {
        let Some(step) = following.next() else {
            return Ok(Operations::new(done));
        };
        match do_step(alloc, session, &mut following, step, &mut done) {
            Ok(()) => {}
            Err(end) => return Err(end),
        }
    }
    unreachable!()
}

// Where a shard was down the transaction is dropped; whatever that is answered, it was the shard that stopped the session.
fn drop_where_down<C: SessionCalls>(alloc: Global, session: &mut C, cause: StopCause)
    requires session { C.holds session.old }
    requires active { IsActiveWhereDown (TryEnd.Stopped cause) (C.seen session.old) }
    requires grounds { C.grounds session.old cause }
    ensures session { C.holds session.new }
    ensures base { C.base session.new ≡ C.base session.old }
    ensures misses { Keeps (C.missed session.old) (C.missed session.new) }
    ensures told { GivenUp (C.missed session.new) (TryEnd.Stopped cause) (C.seen session.old) (C.seen session.new) }
    ensures grounds { C.grounds session.new cause }
{
    match cause {
        StopCause::Down { .. } => {
            let _answer = session.abort(alloc);
        }
        _ => {}
    }
}

fn give_up<C: SessionCalls>(alloc: Global, session: &mut C, end: TryEnd)
    requires session { C.holds session.old }
    requires active { IsActiveWhereDown end (C.seen session.old) }
    requires grounds { OnStop (C.grounds session.old) end }
    ensures session { C.holds session.new }
    ensures base { C.base session.new ≡ C.base session.old }
    ensures misses { Keeps (C.missed session.old) (C.missed session.new) }
    ensures told { GivenUp (C.missed session.new) end (C.seen session.old) (C.seen session.new) }
    ensures grounds { OnStop (C.grounds session.new) end }
{
    match end {
        TryEnd::Stopped(cause) => drop_where_down(alloc, session, cause),
        _ => {}
    }
}

// Whether the active transaction touched a shard; one that is over did.
fn has_touched<C: SessionCalls>(session: &C) -> bool
    ensures { TouchedBy (C.seen session.now).standing result }
{
    match session.stage() {
        Stage::Active { touched } => touched,
        _ => true,
    }
}

// Whether its request stands without an answer.
fn is_asked<C: SessionCalls>(session: &C) -> bool
    ensures { result ≡ is_asked_in (C.seen session.now).standing }
{
    match session.stage() {
        Stage::Asked => true,
        _ => false,
    }
}

// The row of a transaction that ended so, if it is acknowledged.
fn keep_row<C: SessionCalls>(session: &C, tx: TxId, end: TryEnd, done: Operations, book: &mut Book)
    requires room { 0 < book.old.room }
    ensures { AddsRows (row_told end tx (C.seen session.now).asked done) book.old book.new }
{
    match end {
        TryEnd::Acknowledged => {
            let point = session.last_request();
            book.push(Row {
                tx,
                point,
                ops: done,
            });
        }
        _ => {}
    }
}

// How a commit ended, and whether its request stands without an answer.
#[derive(Clone, Copy)]
struct Committed {
    end: TryEnd,
    asked: bool,
}

// Room for the row is made first, as none may be wanting behind the acknowledgement.
fn commit<C: SessionCalls>(
    alloc: Global,
    session: &mut C,
    done: Operations,
    book: &mut Book,
) -> Committed
    requires session { C.holds session.old }
    requires active { (tx : TxId) × (birth : BirthIs) × (nth : ℕ) × (touched : ℕ → Bool) × ((C.seen session.old).standing ≡ Active tx birth nth touched) }
    requires whole { (g : Going) × (C.going session.old ≡ Some g) }
    ensures session { C.holds session.new }
    ensures base { C.base session.new ≡ C.base session.old }
    ensures misses { Keeps (C.missed session.old) (C.missed session.new) }
    ensures kept { (tx : TxId) (birth : BirthIs) (nth : ℕ) (touched : ℕ → Bool) → (C.seen session.old).standing ≡ Active tx birth nth touched → CommitKept (C.missed session.new) tx birth nth touched done result.end result.asked book.old book.new (C.seen session.old) (C.seen session.new) }
    ensures grounds { OnStop (C.grounds session.new) result.end }
{
    if book.reserve(1).is_err() {
        session.tell_lack();
        return Committed {
            end: TryEnd::Stopped(StopCause::Memory),
            asked: false,
        };
    }
    let tx = session.name();
    let end = session.commit(alloc);
    let asked = is_asked(session);
    keep_row(session, tx, end, done, book);
    give_up(alloc, session, end);
    Committed { end, asked }
}

fn abort<C: SessionCalls>(alloc: Global, session: &mut C) -> TryEnd
    requires session { C.holds session.old }
    requires active { (tx : TxId) × (birth : BirthIs) × (nth : ℕ) × (touched : ℕ → Bool) × ((C.seen session.old).standing ≡ Active tx birth nth touched) }
    ensures session { C.holds session.new }
    ensures base { C.base session.new ≡ C.base session.old }
    ensures misses { Keeps (C.missed session.old) (C.missed session.new) }
    ensures told { (tx : TxId) (birth : BirthIs) (nth : ℕ) (touched : ℕ → Bool) → (C.seen session.old).standing ≡ Active tx birth nth touched → LineAborts (C.missed session.new) tx birth touched result (C.seen session.old) (C.seen session.new) }
    ensures grounds { OnStop (C.grounds session.new) result }
{
    match session.abort(alloc) {
        Ok(()) => TryEnd::Asked,
        Err(cause) => TryEnd::Stopped(cause),
    }
}

/// A try that was made: how it ended, and as what it is counted.
#[derive(Clone, Copy)]
pub(crate) struct Made {
    pub end: TryEnd,
    pub fate: Option<Fate>,
}

// The end that its lines ask for.
fn end_as<C: SessionCalls>(
    alloc: Global,
    session: &mut C,
    ending: Ending,
    done: Operations,
    book: &mut Book,
) -> Made
    requires session { C.holds session.old }
    requires active { (tx : TxId) × (birth : BirthIs) × (nth : ℕ) × (touched : ℕ → Bool) × ((C.seen session.old).standing ≡ Active tx birth nth touched) }
    requires whole { (g : Going) × (C.going session.old ≡ Some g) }
    ensures session { C.holds session.new }
    ensures base { C.base session.new ≡ C.base session.old }
    ensures misses { Keeps (C.missed session.old) (C.missed session.new) }
    ensures kept { (tx : TxId) (birth : BirthIs) (nth : ℕ) (touched : ℕ → Bool) → (C.seen session.old).standing ≡ Active tx birth nth touched → EndMade (C.missed session.new) tx birth nth touched done ending result.end result.fate book.old book.new (C.seen session.old) (C.seen session.new) }
    ensures grounds { OnStop (C.grounds session.new) result.end }
{
    let touched = has_touched(session);
    match ending {
        Ending::Commit => {
            let Committed { end, asked } = commit(alloc, session, done, book);
            let fate = fate_of(touched, end, asked);
            Made { end, fate }
        }
        Ending::Abort => {
            let end = abort(alloc, session);
            let fate = fate_of(touched, end, false);
            Made { end, fate }
        }
    }
}

/// Runs the active transaction, which made nothing so far, from its first line to its end. The entries that it adds are a try of it, which ended as it is
/// told; what stopped the session, if anything did, has its grounds. Its row is in the book, if it is acknowledged.
pub(crate) fn run_try<R: Wait, C: SessionCalls>(
    rt: &R,
    alloc: Global,
    session: &mut C,
    transaction: &Transaction,
    book: &mut Book,
) -> Made
    requires session { C.holds session.old }
    requires begun { (tx : TxId) × (birth : BirthIs) × ((C.seen session.old).standing ≡ Active tx birth 0 untouched) }
    requires fresh { C.going session.old ≡ Some going_at_start }
    requires narrow { list_all is_narrow transaction.now.actions ≡ true }
    requires splits { are_splits (C.seen session.old).splits ≡ true }
    ensures session { C.holds session.new }
    ensures base { C.base session.new ≡ C.base session.old }
    ensures misses { Keeps (C.missed session.old) (C.missed session.new) }
    ensures kept { (tx : TxId) (birth : BirthIs) → (C.seen session.old).standing ≡ Active tx birth 0 untouched → TriedKept (C.missed session.new) transaction.now tx birth result.end result.fate book.old book.new (C.seen session.old) (C.seen session.new) }
    ensures grounds { OnStop (C.grounds session.new) result.end }
{
    match do_lines(rt, alloc, session, transaction.actions()) {
        Ok(done) => end_as(alloc, session, transaction.ending(), done, book),
        Err(end) => {
            let touched = has_touched(session);
            give_up(alloc, session, end);
            let fate = fate_of(touched, end, false);
            Made { end, fate }
        }
    }
}
