// Calls of a session, from the disks to the disks.
ghost use Rattle.std.specs.Prelude.{◌≡◌, ◌<◌, ◌≤◌, ◌+◌, ℕ, true, false, length, vec_len, vec_capacity, IfOk, IfErr};
ghost use Rattle.clv_base.specs.Shards.{are_splits};
ghost use Rattle.io_model.specs.Sides.{sides_out, sides_told};
ghost use Rattle.cluster_opening.specs.Opening.{Refuses, CountsOpen};
ghost use Rattle.session_api.specs.Savepoints.{Saved};
ghost use Rattle.session_api.specs.Standing.{Holds, IsAtRest};
ghost use Rattle.session_examples.specs.Walkers.{AreNew, AreAtRest};
ghost use Rattle.session_examples.specs.Programs.{HasRun, AnyMade};

use crate::closing::{Left, close_all};
use crate::sitting::{leave, sit};
use crate::{Call, Said, make_call};
use cluster_opening::OpenError;
use cluster_runs::{Opened, open_all};
use cluster_turns::{
    Carry, CarryError, FlushError, Flushed, Reminding, Shards, Walker, carry_once, flush_once,
    remind_once,
};
use io_model::{House, Pace};
use lean_machine::LeanMachine;
use lock_table::Locks;
use log_gate::LogGate;
use machine_calls::Flier;
use ordered_store::Store;
use session_api::Session;
use shard_machine::ShardMachine;
use std::alloc::Global;
use std::sync::Wait;

/// What the first shard answers a walker that has nothing to do there.
#[derive(Drop, Clone, Copy, PartialEq, Eq)]
pub struct Quiet {
    /// How many records are durable at least.
    pub horizon: u64,
    pub flushed: Result<Flushed, FlushError>,
    pub carried: Result<Carry, CarryError>,
    pub reminded: Result<Reminding, CarryError>,
}

// Makes the calls one after another.
pub(crate) fn call_all<M: Flier, P: Pace, R: Wait>(
    alloc: Global,
    session: &mut Session<'_, M, P, R>,
    calls: &[Call],
    mut answers: Vec<Said>,
) -> Vec<Said>
    requires session { Holds session.old.shards.now session.old.walker session.old.progress }
    requires saved { Saved session.old.progress session.old.saves.items }
    requires room { vec_len answers + length calls.now ≤ vec_capacity answers }
    ensures session { Holds session.new.shards.now session.new.walker session.new.progress }
    ensures saved { Saved session.new.progress session.new.saves.items }
    ensures shards { session.new.shards ≡ session.old.shards }
    ensures number { session.new.walker.number ≡ session.old.walker.number }
    ensures len { vec_len result ≡ vec_len answers + length calls.now }
{
    for call in calls {
        answers.push_reserved(make_call(alloc, session, call.copy()));
    }
    answers
}

// Asks the first shard for its horizon, and for whatever is to be done.
fn look_around<M: Flier, P: Pace, R: Wait>(
    rt: &R,
    alloc: Global,
    shards: &Shards<M>,
    walker: &mut Walker<M>,
    pace: &P,
) -> Quiet
    requires rest { IsAtRest shards.now walker.old.number walker.old }
    ensures rest { IsAtRest shards.now walker.old.number walker.new }
{
    let horizon = shards.horizon_of(walker, 0);
    let flushed = flush_once(rt, alloc, shards, walker, 0, pace);
    let carried = carry_once(rt, alloc, shards, walker, 0);
    let reminded = remind_once(rt, alloc, shards, walker, 0);
    Quiet {
        horizon,
        flushed,
        carried,
        reminded,
    }
}

// Makes the calls of a session of the second of two new walkers, and looks around by that walker.
fn call_and_look<M: Flier, P: Pace, R: Wait>(
    rt: &R,
    alloc: Global,
    shards: &Shards<M>,
    pace: &P,
    walkers: &mut Vec<Walker<M>>,
    calls: &[Call],
    answers: Vec<Said>,
) -> (Vec<Said>, Quiet)
    requires splits { are_splits shards.now.splits ≡ true }
    requires two { vec_len walkers.old ≡ 2 }
    requires new { (first : ℕ) × AreNew shards.now first walkers.old.items }
    requires room { vec_len answers + length calls.now ≤ vec_capacity answers }
    ensures two { vec_len walkers.new ≡ 2 }
    ensures rest { AreAtRest shards.now walkers.new.items }
    ensures len { vec_len result.0 ≡ vec_len answers + length calls.now }
{
    let mut session = sit(rt, alloc, shards, pace, walkers);
    let answers = call_all(alloc, &mut session, calls, answers);
    leave(walkers, session);
    let quiet = look_around(rt, alloc, shards, &mut walkers[1], pace);
    (answers, quiet)
}

/// Opens a cluster over the disks of a house with a clock that begins with `first`, makes these calls of one session, looks around on the first
/// shard with the session's walker, and closes. Each call is answered once. An `Err` is the first refusal of the opening.
pub fn open_call_close<S: Store + Drop, L: Locks + Drop, R: Wait, H: House, P: Pace>(
    rt: &R,
    alloc: Global,
    house: &mut H,
    pace: &P,
    first: u64,
    calls: &[Call],
) -> Result<(Vec<Said>, Quiet, Left<S>), OpenError>
    requires inside { (n : ℕ) → n < 16 → sides_out (H.is_out house.old) n ≡ (false, false) }
    ensures each { IfOk result (λ r. vec_len r.0 ≡ length calls.now) }
    ensures ran { IfOk result (λ r. HasRun (sides_told (H.story house.old)) (sides_told (H.story house.new)) (H.faults house.old) (H.faults house.new) r.2.history AnyMade) }
    ensures back { (n : ℕ) → n < 16 → sides_out (H.is_out house.new) n ≡ (false, false) }
    ensures refused { IfErr result (Refuses (sides_told (H.story house.old))) }
    ensures counts { IfErr result (CountsOpen (H.faults house.old) (H.faults house.new)) }
{
    let Ok(answers) = Vec::with_capacity(alloc, calls.len()) else {
        return Err(OpenError::Memory);
    };
    let opened = match open_all::<S, L, H>(alloc, house, 1, first) {
        Ok(opened) => opened,
        Err(error) => return Err(error),
    };
    let Opened {
        shards,
        mut walkers,
        room,
        found,
    } = opened;
    let (answers, quiet) = call_and_look(rt, alloc, &shards, pace, &mut walkers, calls, answers);
    let left = close_all::<H, LeanMachine<ShardMachine<S, L, LogGate<H::Disk>>>>(
        alloc, house, shards, walkers, room, found,
    );
    Ok((answers, quiet, left))
}
