// One line of a session.
ghost use Rattle.std.specs.Prelude.{◌≡◌, ℕ, true, Some, None};
ghost use Rattle.live_lines.specs.declared.calls.Call.TheVariants as calls;
ghost use Rattle.live_lines.specs.declared.calls.Asked.TheVariants as asks;
ghost use Rattle.script_lang.specs.Savepoints.{upto_of};
ghost use Rattle.script_runs.specs.Seen.{Going, Keeps};
ghost use Rattle.script_runs.specs.Told.{has_range as ranges};
ghost use Rattle.script_runs.specs.Tried.{OnStop};
ghost use Rattle.script_runs.specs.Ran.{IsIdle};
ghost use Rattle.live_sessions.specs.Served.{IsActive, IsLast, Goes, GoesOn, Leads, LeadsBy, Turns, Did, Drops, EndTold, IsOtherEnd, Over, reply_by};

use clv_base::causes::AbortCause;
use clv_base::ops::Op;
use live_lines::{Asked, Call, Refusal, Reply};
use script_runs::{SessionCalls, Stage, StopCause, TryEnd};
use std::alloc::Global;

/// How a session goes on: whether its last transaction may be tried again, and what it has ended by, if it has.
#[derive(Clone, Copy)]
pub struct Course {
    pub may_retry: bool,
    pub ended: Option<StopCause>,
}

/// What a line came to.
#[derive(Drop)]
pub struct Step {
    pub reply: Reply,
    pub course: Course,
}

// The session goes on.
fn goes_on(reply: Reply, may_retry: bool) -> Step
    ensures { (result.reply ≡ reply) × (result.course.may_retry ≡ may_retry) × (result.course.ended ≡ None) }
{
    Step {
        reply,
        course: Course {
            may_retry,
            ended: None,
        },
    }
}

// The session has ended by this.
fn ends(reply: Reply, cause: StopCause) -> Step
    ensures { (result.reply ≡ reply) × (result.course.ended ≡ Some cause) }
{
    Step {
        reply,
        course: Course {
            may_retry: false,
            ended: Some(cause),
        },
    }
}

// What is said of a cause.
fn reply_of(cause: StopCause) -> Reply
    ensures { result ≡ reply_by cause }
{
    match cause {
        StopCause::Down { shard } => Reply::Down { shard },
        StopCause::Unsettled { shard } => Reply::Unsettled { shard },
        StopCause::Worn { at } => Reply::Worn { at },
        StopCause::Memory => Reply::Memory,
    }
}

fn stops(cause: StopCause) -> Step
    ensures { (result.reply ≡ reply_by cause) × (result.course.ended ≡ Some cause) }
{
    ends(reply_of(cause), cause)
}

fn begin<C: SessionCalls>(session: &mut C) -> Step
    requires session { C.holds session.old }
    requires idle { IsIdle (C.seen session.old) }
    ensures session { C.holds session.new }
    ensures base { C.base session.new ≡ C.base session.old }
    ensures misses { Keeps (C.missed session.old) (C.missed session.new) }
    ensures did { Did (C.going session.old) (asks.Call calls.Begin) result.reply (C.seen session.old) (C.seen session.new) }
    ensures over { Over result.reply (C.seen session.old) (C.going session.old) (C.going session.new) }
    ensures leads { Leads calls.Begin result.reply result.course (C.seen session.new) }
    ensures course { Goes (C.grounds session.new) result.course (C.seen session.new) (C.going session.new) }
{
    match session.begin() {
        Ok(()) => {
            let serial = session.name().serial;
            goes_on(Reply::Begun { serial }, false)
        }
        Err(cause) => stops(cause),
    }
}

// The last transaction ended by an abort.
fn retry<C: SessionCalls>(alloc: Global, session: &mut C) -> Step
    requires session { C.holds session.old }
    requires ended { IsLast (C.seen session.old) }
    ensures session { C.holds session.new }
    ensures base { C.base session.new ≡ C.base session.old }
    ensures misses { Keeps (C.missed session.old) (C.missed session.new) }
    ensures did { Did (C.going session.old) (asks.Call calls.Retry) result.reply (C.seen session.old) (C.seen session.new) }
    ensures over { Over result.reply (C.seen session.old) (C.going session.old) (C.going session.new) }
    ensures leads { Leads calls.Retry result.reply result.course (C.seen session.new) }
    ensures course { Goes (C.grounds session.new) result.course (C.seen session.new) (C.going session.new) }
{
    match session.retry(alloc) {
        Ok(()) => {
            let serial = session.name().serial;
            goes_on(Reply::Begun { serial }, false)
        }
        Err(StopCause::Down { shard }) => goes_on(Reply::Down { shard }, false),
        Err(cause) => stops(cause),
    }
}

// Where a shard was down the active transaction is dropped, and the session goes on.
fn drop_down<C: SessionCalls>(alloc: Global, session: &mut C, shard: u32) -> Step
    requires session { C.holds session.old }
    requires active { IsActive (C.seen session.old) }
    ensures session { C.holds session.new }
    ensures base { C.base session.new ≡ C.base session.old }
    ensures misses { Keeps (C.missed session.old) (C.missed session.new) }
    ensures reply { result.reply ≡ Reply.Down shard }
    ensures dropped { Drops (C.seen session.old) (C.seen session.new) }
    ensures leads { LeadsBy result.reply result.course (C.seen session.new) }
    ensures course { Goes (C.grounds session.new) result.course (C.seen session.new) (C.going session.new) }
{
    match session.abort(alloc) {
        Ok(()) => goes_on(Reply::Down { shard }, true),
        Err(cause) => ends(Reply::Down { shard }, cause),
    }
}

// A try that didn't end well.
fn end_by<C: SessionCalls>(alloc: Global, session: &mut C, end: TryEnd) -> Step
    requires session { C.holds session.old }
    requires other { IsOtherEnd end (C.seen session.old) }
    requires grounds { OnStop (C.grounds session.old) end }
    ensures session { C.holds session.new }
    ensures base { C.base session.new ≡ C.base session.old }
    ensures misses { Keeps (C.missed session.old) (C.missed session.new) }
    ensures ended { EndTold end result.reply (C.seen session.old) (C.seen session.new) }
    ensures leads { LeadsBy result.reply result.course (C.seen session.new) }
    ensures course { Goes (C.grounds session.new) result.course (C.seen session.new) (C.going session.new) }
{
    match end {
        TryEnd::Aborted(cause) => goes_on(Reply::Aborted(cause), true),
        TryEnd::Stopped(StopCause::Down { shard }) => drop_down(alloc, session, shard),
        TryEnd::Stopped(cause) => stops(cause),
        _ => unreachable!(),
    }
}

fn operate<C: SessionCalls>(alloc: Global, session: &mut C, op: Op) -> Step
    requires session { C.holds session.old }
    requires active { IsActive (C.seen session.old) }
    requires whole { (g : Going) × (C.going session.old ≡ Some g) }
    requires range { ranges op ≡ true }
    ensures session { C.holds session.new }
    ensures base { C.base session.new ≡ C.base session.old }
    ensures misses { Keeps (C.missed session.old) (C.missed session.new) }
    ensures did { Did (C.going session.old) (asks.Call (calls.Operate op)) result.reply (C.seen session.old) (C.seen session.new) }
    ensures over { Over result.reply (C.seen session.old) (C.going session.old) (C.going session.new) }
    ensures leads { Leads (calls.Operate op) result.reply result.course (C.seen session.new) }
    ensures course { Goes (C.grounds session.new) result.course (C.seen session.new) (C.going session.new) }
{
    match session.operate(alloc, &op) {
        Ok(answer) => goes_on(Reply::Answered { op, answer }, false),
        Err(end) => end_by(alloc, session, end),
    }
}

fn save<C: SessionCalls>(session: &mut C) -> Step
    requires session { C.holds session.old }
    requires active { IsActive (C.seen session.old) }
    requires whole { (g : Going) × (C.going session.old ≡ Some g) }
    ensures session { C.holds session.new }
    ensures base { C.base session.new ≡ C.base session.old }
    ensures misses { Keeps (C.missed session.old) (C.missed session.new) }
    ensures did { Did (C.going session.old) (asks.Call calls.Save) result.reply (C.seen session.old) (C.seen session.new) }
    ensures over { Over result.reply (C.seen session.old) (C.going session.old) (C.going session.new) }
    ensures leads { Leads calls.Save result.reply result.course (C.seen session.new) }
    ensures course { Goes (C.grounds session.new) result.course (C.seen session.new) (C.going session.new) }
{
    match session.save() {
        Ok(number) => goes_on(Reply::Saved { number }, false),
        Err(_) => {
            session.tell_lack();
            stops(StopCause::Memory)
        }
    }
}

// The savepoint of this number stands.
fn go_back<C: SessionCalls>(alloc: Global, session: &mut C, number: u64) -> Step
    requires session { C.holds session.old }
    requires active { IsActive (C.seen session.old) }
    requires stands { (g : Going) × (upto : ℕ) × (C.going session.old ≡ Some g) × (upto_of number g.saves.standing ≡ Some upto) }
    ensures session { C.holds session.new }
    ensures base { C.base session.new ≡ C.base session.old }
    ensures misses { Keeps (C.missed session.old) (C.missed session.new) }
    ensures did { Did (C.going session.old) (asks.Call (calls.Back number)) result.reply (C.seen session.old) (C.seen session.new) }
    ensures over { Over result.reply (C.seen session.old) (C.going session.old) (C.going session.new) }
    ensures leads { Leads (calls.Back number) result.reply result.course (C.seen session.new) }
    ensures course { Goes (C.grounds session.new) result.course (C.seen session.new) (C.going session.new) }
{
    match session.go_back(alloc, number) {
        Ok(_) => goes_on(Reply::WentBack { number }, false),
        Err(end) => end_by(alloc, session, end),
    }
}

fn commit<C: SessionCalls>(alloc: Global, session: &mut C) -> Step
    requires session { C.holds session.old }
    requires active { IsActive (C.seen session.old) }
    requires whole { (g : Going) × (C.going session.old ≡ Some g) }
    ensures session { C.holds session.new }
    ensures base { C.base session.new ≡ C.base session.old }
    ensures misses { Keeps (C.missed session.old) (C.missed session.new) }
    ensures did { Did (C.going session.old) (asks.Call calls.Commit) result.reply (C.seen session.old) (C.seen session.new) }
    ensures over { Over result.reply (C.seen session.old) (C.going session.old) (C.going session.new) }
    ensures leads { Leads calls.Commit result.reply result.course (C.seen session.new) }
    ensures course { Goes (C.grounds session.new) result.course (C.seen session.new) (C.going session.new) }
{
    let serial = session.name().serial;
    match session.commit(alloc) {
        TryEnd::Acknowledged => goes_on(Reply::Committed { serial }, false),
        TryEnd::Empty => goes_on(Reply::Empty { serial }, false),
        end => end_by(alloc, session, end),
    }
}

fn abort<C: SessionCalls>(alloc: Global, session: &mut C) -> Step
    requires session { C.holds session.old }
    requires active { IsActive (C.seen session.old) }
    ensures session { C.holds session.new }
    ensures base { C.base session.new ≡ C.base session.old }
    ensures misses { Keeps (C.missed session.old) (C.missed session.new) }
    ensures did { Did (C.going session.old) (asks.Call calls.Abort) result.reply (C.seen session.old) (C.seen session.new) }
    ensures over { Over result.reply (C.seen session.old) (C.going session.old) (C.going session.new) }
    ensures leads { Leads calls.Abort result.reply result.course (C.seen session.new) }
    ensures course { Goes (C.grounds session.new) result.course (C.seen session.new) (C.going session.new) }
{
    match session.abort(alloc) {
        Ok(()) => goes_on(Reply::Aborted(AbortCause::Asked), true),
        Err(cause) => stops(cause),
    }
}

// Nothing was done.
fn refuse(refusal: Refusal, course: Course) -> Step
    ensures { (result.reply ≡ Reply.Refused refusal) × (result.course ≡ course) }
{
    Step {
        reply: Reply::Refused(refusal),
        course,
    }
}

// Where no transaction is active.
fn call_at_rest<C: SessionCalls>(alloc: Global, session: &mut C, course: Course, call: Call) -> Step
    requires session { C.holds session.old }
    requires idle { IsIdle (C.seen session.old) }
    requires live { course.ended ≡ None }
    requires course { Goes (C.grounds session.old) course (C.seen session.old) (C.going session.old) }
    ensures session { C.holds session.new }
    ensures base { C.base session.new ≡ C.base session.old }
    ensures misses { Keeps (C.missed session.old) (C.missed session.new) }
    ensures did { Did (C.going session.old) (asks.Call call) result.reply (C.seen session.old) (C.seen session.new) }
    ensures over { Over result.reply (C.seen session.old) (C.going session.old) (C.going session.new) }
    ensures turns { Turns (C.going session.old) course (asks.Call call) result.reply result.course (C.seen session.old) (C.seen session.new) }
    ensures course { Goes (C.grounds session.new) result.course (C.seen session.new) (C.going session.new) }
{
    match call {
        Call::Begin => begin(session),
        Call::Retry => {
            if course.may_retry {
                retry(alloc, session)
            } else {
                refuse(Refusal::NoRetry, course)
            }
        }
        _ => refuse(Refusal::NoTx, course),
    }
}

// Whether the bounds of a scan rise.
fn has_range(op: &Op) -> bool
    ensures { result ≡ ranges op.now }
{
    match op {
        Op::Scan(low, high) => *low <= *high,
        _ => true,
    }
}

// Where one is.
fn call_in_tx<C: SessionCalls>(alloc: Global, session: &mut C, course: Course, call: Call) -> Step
    requires session { C.holds session.old }
    requires active { IsActive (C.seen session.old) }
    requires live { course.ended ≡ None }
    requires course { Goes (C.grounds session.old) course (C.seen session.old) (C.going session.old) }
    ensures session { C.holds session.new }
    ensures base { C.base session.new ≡ C.base session.old }
    ensures misses { Keeps (C.missed session.old) (C.missed session.new) }
    ensures did { Did (C.going session.old) (asks.Call call) result.reply (C.seen session.old) (C.seen session.new) }
    ensures over { Over result.reply (C.seen session.old) (C.going session.old) (C.going session.new) }
    ensures turns { Turns (C.going session.old) course (asks.Call call) result.reply result.course (C.seen session.old) (C.seen session.new) }
    ensures course { Goes (C.grounds session.new) result.course (C.seen session.new) (C.going session.new) }
{
    match call {
        Call::Operate(op) => {
            if has_range(&op) {
                operate(alloc, session, op)
            } else {
                refuse(Refusal::Unknown, course)
            }
        }
        Call::Save => save(session),
        Call::Back(number) => {
            if session.has_savepoint(number) {
                go_back(alloc, session, number)
            } else {
                refuse(Refusal::NoSavepoint, course)
            }
        }
        Call::Commit => commit(alloc, session),
        Call::Abort => abort(alloc, session),
        _ => refuse(Refusal::Active, course),
    }
}

// A call of a session that hasn't ended.
fn call_of<C: SessionCalls>(alloc: Global, session: &mut C, course: Course, call: Call) -> Step
    requires session { C.holds session.old }
    requires live { course.ended ≡ None }
    requires course { Goes (C.grounds session.old) course (C.seen session.old) (C.going session.old) }
    ensures session { C.holds session.new }
    ensures base { C.base session.new ≡ C.base session.old }
    ensures misses { Keeps (C.missed session.old) (C.missed session.new) }
    ensures did { Did (C.going session.old) (asks.Call call) result.reply (C.seen session.old) (C.seen session.new) }
    ensures over { Over result.reply (C.seen session.old) (C.going session.old) (C.going session.new) }
    ensures turns { Turns (C.going session.old) course (asks.Call call) result.reply result.course (C.seen session.old) (C.seen session.new) }
    ensures course { Goes (C.grounds session.new) result.course (C.seen session.new) (C.going session.new) }
{
    match session.stage() {
        Stage::Idle => call_at_rest(alloc, session, course, call),
        Stage::Active { .. } => call_in_tx(alloc, session, course, call),
        Stage::Asked => refuse(Refusal::Ended, course),
    }
}

/// Does what a line asks for, and answers it. Where the line is no call, is out of turn, or the session has ended, it is refused, and nothing is done.
pub(crate) fn answer<C: SessionCalls>(
    alloc: Global,
    session: &mut C,
    course: Course,
    asked: Asked,
) -> Step
    requires session { C.holds session.old }
    requires course { Goes (C.grounds session.old) course (C.seen session.old) (C.going session.old) }
    ensures session { C.holds session.new }
    ensures base { C.base session.new ≡ C.base session.old }
    ensures misses { Keeps (C.missed session.old) (C.missed session.new) }
    ensures did { Did (C.going session.old) asked result.reply (C.seen session.old) (C.seen session.new) }
    ensures over { Over result.reply (C.seen session.old) (C.going session.old) (C.going session.new) }
    ensures turns { Turns (C.going session.old) course asked result.reply result.course (C.seen session.old) (C.seen session.new) }
    ensures course { Goes (C.grounds session.new) result.course (C.seen session.new) (C.going session.new) }
{
    if course.ended.is_some() {
        return refuse(Refusal::Ended, course);
    }
    match asked {
        Asked::Call(call) => call_of(alloc, session, course, call),
        Asked::Unknown => refuse(Refusal::Unknown, course),
        Asked::NoMemory => refuse(Refusal::NoMemory, course),
    }
}
