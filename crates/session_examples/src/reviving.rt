// A shard that falls and comes back, from the disks to the disks.
ghost use Rattle.std.specs.Prelude.{◌≡◌, ◌<◌, ◌≤◌, ◌+◌, ℕ, true, false, length, vec_len, vec_capacity, IfOk, IfErr};
ghost use Rattle.clv_base.specs.Shards.{are_splits};
ghost use Rattle.io_model.specs.Sides.{sides_out, sides_told};
ghost use Rattle.cluster_opening.specs.Opening.{Refuses};
ghost use Rattle.session_api.specs.Standing.{IsAtRest};
ghost use Rattle.session_examples.specs.Walkers.{AreNew, IsAtHome, AreAtHome};

use crate::calling::call_all;
use crate::closing::{Left, close_all};
use crate::sitting::{leave, sit};
use crate::{Call, Said};
use cluster_closing::{FetchError, Fetched, fetch, restart};
use cluster_opening::OpenError;
use cluster_runs::{Opened, open_all};
use cluster_turns::{Shards, Walker};
use io_model::{House, Pace};
use lean_machine::LeanMachine;
use lock_table::Locks;
use log_gate::LogGate;
use machine_calls::{Flier, Reopener};
use ordered_store::Store;
use shard_machine::ShardMachine;
use std::alloc::Global;
use std::sync::Wait;

/// What became of the first shard: its new epoch, or why its disk was not fetched.
pub type Revival = Result<u64, FetchError>;

/// What a session was answered before and after.
#[derive(Drop)]
pub struct Revived {
    pub before: Vec<Said>,
    pub revival: Revival,
    pub after: Vec<Said>,
}

// Fetches the disk of the first shard where that is down, and restarts the shard, however often that takes.
fn revive<M: Reopener, R: Wait>(
    rt: &R,
    alloc: Global,
    shards: &Shards<M>,
    walker: &mut Walker<M>,
) -> Revival
    requires rest { IsAtRest shards.now 0 walker.old }
    ensures home { IsAtHome shards.now 0 walker.new }
{
    let mut fetched = match fetch(rt, shards, walker, 0) {
        Ok(fetched) => fetched,
        Err(error) => return Err(error),
    };
    for _try in rt.forever() {
        match restart(rt, alloc, shards, walker, fetched) {
            Ok(epoch) => return Ok(epoch),
            Err((_error, again)) => fetched = again,
        }
    }
    unreachable!()
}

// Makes calls of a session of the second of two new walkers, before and after the first one brings the first shard back.
fn revive_between<M: Reopener + Flier, P: Pace, R: Wait>(
    rt: &R,
    alloc: Global,
    shards: &Shards<M>,
    pace: &P,
    walkers: &mut Vec<Walker<M>>,
    first: (&[Call], Vec<Said>),
    then: (&[Call], Vec<Said>),
) -> Revived
    requires splits { are_splits shards.now.splits ≡ true }
    requires two { vec_len walkers.old ≡ 2 }
    requires new { AreNew shards.now 0 walkers.old.items }
    requires room { (vec_len first.1 + length first.0.now ≤ vec_capacity first.1) × (vec_len then.1 + length then.0.now ≤ vec_capacity then.1) }
    ensures two { vec_len walkers.new ≡ 2 }
    ensures home { AreAtHome shards.now walkers.new.items }
    ensures len { (vec_len result.before ≡ vec_len first.entry.1 + length first.entry.0.now) × (vec_len result.after ≡ vec_len then.entry.1 + length then.entry.0.now) }
{
    let mut session = sit(rt, alloc, shards, pace, walkers);
    let before = call_all(alloc, &mut session, first.0, first.1);
    let revival = revive(rt, alloc, shards, &mut walkers[0]);
    let after = call_all(alloc, &mut session, then.0, then.1);
    leave(walkers, session);
    Revived {
        before,
        revival,
        after,
    }
}

/// Opens a cluster over the disks of a house, makes calls of a session, restarts the first shard by another walker where that is down, makes more calls of the
/// session, and closes.
pub fn open_revive_close<S: Store + Drop, L: Locks + Drop, R: Wait, H: House, P: Pace>(
    rt: &R,
    alloc: Global,
    house: &mut H,
    pace: &P,
    calls: &[Call],
    more: &[Call],
) -> Result<(Revived, Left<S>), OpenError>
    requires inside { (n : ℕ) → n < 16 → sides_out (H.is_out house.old) n ≡ (false, false) }
    ensures each { IfOk result (λ r. (vec_len r.0.before ≡ length calls.now) × (vec_len r.0.after ≡ length more.now)) }
    ensures back { (n : ℕ) → n < 16 → sides_out (H.is_out house.new) n ≡ (false, false) }
    ensures refused { IfErr result (Refuses (sides_told (H.story house.old))) }
{
    let Ok(before) = Vec::with_capacity(alloc, calls.len()) else {
        return Err(OpenError::Memory);
    };
    let Ok(after) = Vec::with_capacity(alloc, more.len()) else {
        return Err(OpenError::Memory);
    };
    let opened = match open_all::<S, L, H>(alloc, house, 1, 0) {
        Ok(opened) => opened,
        Err(error) => return Err(error),
    };
    let Opened {
        shards,
        mut walkers,
        room,
        found,
    } = opened;
    let revived = revive_between(
        rt,
        alloc,
        &shards,
        pace,
        &mut walkers,
        (calls, before),
        (more, after),
    );
    let left = close_all::<H, LeanMachine<ShardMachine<S, L, LogGate<H::Disk>>>>(
        alloc, house, shards, walkers, room, found,
    );
    Ok((revived, left))
}
