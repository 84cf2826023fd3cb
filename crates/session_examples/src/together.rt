// Sessions that transfer beside each other, from the disks to the disks.
ghost use Rattle.std.specs.Prelude.{◌≡◌, ◌≢◌, ◌<◌, ◌≤◌, ◌+◌, ℕ, suc, true, false, length, slice_index_or, vec_len, vec_capacity, IfOk, IfErr};
ghost use Rattle.clv_base.specs.Shards.{are_splits};
ghost use Rattle.io_model.specs.Sides.{sides_out, sides_told};
ghost use Rattle.cluster_opening.specs.Opening.{Refuses, CountsOpen};
ghost use Rattle.session_api.specs.Standing.{Holds, IsAtRest};
ghost use Rattle.session_api.specs.Progresses.{active_tx};
ghost use Rattle.session_api.specs.Savepoints.{Saved};
ghost use Rattle.session_examples.specs.Walkers.{AreNew, AreAtRest, IsSeated};
ghost use Rattle.session_examples.specs.Programs.{HasRun, AnyMade};

use crate::closing::{Left, close_all};
use crate::sitting::{leave, sit};
use crate::{Transferred, transfer};
use cluster_closing::end_promises::drains_land;
use cluster_opening::OpenError;
use cluster_runs::{Opened, open_all};
use cluster_turns::{Home, Shards, Walker, drain};
use io_model::{House, Pace};
use lean_machine::LeanMachine;
use lock_table::Locks;
use log_gate::LogGate;
use machine_calls::Flier;
use ordered_store::Store;
use session_api::Session;
use shard_machine::ShardMachine;
use std::alloc::Global;
use std::sync::Wait;
use std::thread;
use std::thread::Threads;

// A session, and how many of its transfers were acknowledged.
#[derive(Drop)]
struct Seat<'a, M: Flier, P: Pace, R: Wait> {
    session: Session<'a, M, P, R>,
    moved: u32,
}

// A seat for each walker but walker 0, which leaves the list.
fn take_seats<'a, M: Flier, P: Pace, R: Wait>(
    rt: &'a R,
    alloc: Global,
    shards: &'a Shards<M>,
    pace: &'a P,
    walkers: &mut Vec<Walker<M>>,
    mut seats: Vec<Seat<'a, M, P, R>>,
) -> Vec<Seat<'a, M, P, R>>
    requires some { (0 < vec_len walkers.old) × (vec_len walkers.old ≤ 65) }
    requires splits { are_splits shards.now.splits ≡ true }
    requires new { AreNew shards.now 0 walkers.old.items }
    requires room { (vec_len seats ≡ 0) × (vec_len walkers.old ≤ vec_capacity seats + 1) }
    ensures len { (vec_len walkers.new ≡ 1) × (vec_capacity walkers.new ≡ vec_capacity walkers.old) × (vec_len result + 1 ≡ vec_len walkers.old) }
    ensures first { (d : _) → slice_index_or walkers.new.items 0 d ≡ slice_index_or walkers.old.items 0 d }
    ensures seated { (k : ℕ) (d : _) → k < vec_len result → IsSeated shards.now (suc k) (slice_index_or result.items k d).session.shards.now (slice_index_or result.items k d).session.walker (slice_index_or result.items k d).session.progress (slice_index_or result.items k d).session.saves.items }
{
    let count = walkers.len();
    for _taken in 1..count {
        let session = sit(rt, alloc, shards, pace, walkers);
        seats.push_reserved(Seat { session, moved: 0 });
    }
    seats.reverse();
    seats
}

// The walkers of all seats go back behind walker 0. It gives how many transfers were acknowledged.
fn leave_seats<M: Flier, P: Pace, R: Wait>(
    walkers: &mut Vec<Walker<M>>,
    seats: Vec<Seat<'_, M, P, R>>,
) -> u64
    requires room { vec_len walkers.old + vec_len seats ≤ vec_capacity walkers.old }
    requires one { vec_len walkers.old ≡ 1 }
    ensures len { vec_len walkers.new ≡ vec_len seats.entry + 1 }
    ensures first { (d : _) → slice_index_or walkers.new.items 0 d ≡ slice_index_or walkers.old.items 0 d }
    ensures walkers { (k : ℕ) (d e : _) → k < vec_len seats.entry → slice_index_or walkers.new.items (suc k) d ≡ (slice_index_or seats.entry.items k e).session.walker }
{
    let mut moved = 0u64;
    for seat in seats {
        let Seat {
            session,
            moved: more,
        } = seat;
        moved = moved.saturating_add(more as u64);
        leave(walkers, session);
    }
    moved
}

// From which key to which: round four keys.
fn way(step: u32) -> (u64, u64)
    ensures apart { result.0 ≢ result.1 }
{
    match step % 4 {
        0 => (1, 11),
        1 => (11, 21),
        2 => (21, 31),
        _ => (31, 1),
    }
}

// One where it was moved.
fn moves(transferred: Transferred) -> u32
    ensures one { result ≤ 1 }
{
    match transferred {
        Transferred::Moved => 1,
        _ => 0,
    }
}

// Moves one so often, each time a step further round, until the session is stopped.
fn transfer_often<M: Flier, P: Pace, R: Wait>(
    alloc: Global,
    session: &mut Session<'_, M, P, R>,
    often: u32,
    tries: u32,
) -> u32
    requires session { Holds session.old.shards.now session.old.walker session.old.progress }
    requires saved { Saved session.old.progress session.old.saves.items }
    requires idle { active_tx session.old.progress ≡ None }
    ensures session { Holds session.new.shards.now session.new.walker session.new.progress }
    ensures saved { Saved session.new.progress session.new.saves.items }
    ensures shards { session.new.shards ≡ session.old.shards }
    ensures number { session.new.walker.number ≡ session.old.walker.number }
{
    let mut moved = 0;
    for step in 0..often {
        let (from, to) = way(step);
        match transfer(alloc, session, from, to, 1, tries) {
            Ok(transferred) => moved += moves(transferred),
            Err(_) => return moved,
        }
    }
    moved
}

// The session of a seat makes its transfers.
fn make_transfers<M: Flier, P: Pace, R: Wait>(
    alloc: Global,
    seat: &mut Seat<'_, M, P, R>,
    often: u32,
    tries: u32,
)
    requires session { Holds seat.old.session.shards.now seat.old.session.walker seat.old.session.progress }
    requires saved { Saved seat.old.session.progress seat.old.session.saves.items }
    requires idle { active_tx seat.old.session.progress ≡ None }
    ensures session { Holds seat.new.session.shards.now seat.new.session.walker seat.new.session.progress }
    ensures saved { Saved seat.new.session.progress seat.new.session.saves.items }
    ensures shards { seat.new.session.shards.now ≡ seat.old.session.shards.now }
    ensures number { seat.new.session.walker.number ≡ seat.old.session.walker.number }
{
    seat.moved = transfer_often(alloc, &mut seat.session, often, tries);
}

// The session of each seat makes its transfers on a thread of its own.
fn run_together<M: Flier + Send, P: Pace + Sync, R: Threads + Wait + Sync>(
    rt: &R,
    alloc: Global,
    seats: &mut [Seat<'_, M, P, R>],
    often: u32,
    tries: u32,
)
where
    M::Store: Send,
    M::Gate: Send,
    requires session { (k : ℕ) (d : _) → k < length seats.old → Holds (slice_index_or seats.old k d).session.shards.now (slice_index_or seats.old k d).session.walker (slice_index_or seats.old k d).session.progress }
    requires saved { (k : ℕ) (d : _) → k < length seats.old → Saved (slice_index_or seats.old k d).session.progress (slice_index_or seats.old k d).session.saves.items }
    requires idle { (k : ℕ) (d : _) → k < length seats.old → active_tx (slice_index_or seats.old k d).session.progress ≡ None }
    ensures session { (k : ℕ) (d : _) → k < length seats.old → Holds (slice_index_or seats.new k d).session.shards.now (slice_index_or seats.new k d).session.walker (slice_index_or seats.new k d).session.progress }
    ensures saved { (k : ℕ) (d : _) → k < length seats.old → Saved (slice_index_or seats.new k d).session.progress (slice_index_or seats.new k d).session.saves.items }
    ensures shards { (k : ℕ) (d : _) → k < length seats.old → (slice_index_or seats.new k d).session.shards.now ≡ (slice_index_or seats.old k d).session.shards.now }
    ensures number { (k : ℕ) (d : _) → k < length seats.old → (slice_index_or seats.new k d).session.walker.number ≡ (slice_index_or seats.old k d).session.walker.number }
{
    if seats.is_empty() {
        return;
    }
    let count = seats.len();
    let body = |_: usize, seat: &mut Seat<'_, M, P, R>|
        requires session { Holds seat.now.session.shards.now seat.now.session.walker seat.now.session.progress }
        requires saved { Saved seat.now.session.progress seat.now.session.saves.items }
        requires idle { active_tx seat.now.session.progress ≡ None }
        ensures session { Holds seat.exit.now.session.shards.now seat.exit.now.session.walker seat.exit.now.session.progress }
        ensures saved { Saved seat.exit.now.session.progress seat.exit.now.session.saves.items }
        ensures shards { seat.exit.now.session.shards.now ≡ seat.entry.now.session.shards.now }
        ensures number { seat.exit.now.session.walker.number ≡ seat.entry.now.session.walker.number }
    { make_transfers(alloc, seat, often, tries) };
    thread::for_each_mut(rt, seats, count, &body);
}

// Drains all shards by the walker of a seat, as far as that goes. Its session is over.
fn drain_seat<M: Flier, P: Pace, R: Wait>(alloc: Global, seat: &mut Seat<'_, M, P, R>)
    requires rest { IsAtRest seat.old.session.shards.now seat.old.session.walker.number seat.old.session.walker }
    ensures rest { IsAtRest seat.old.session.shards.now seat.old.session.walker.number seat.new.session.walker }
{
    drains_land::<Home<M>>();
    let rt = seat.session.rt;
    let shards = seat.session.shards;
    let pace = seat.session.pace;
    let _drained = drain(rt, alloc, shards, &mut seat.session.walker, pace);
}

// The walkers of all seats drain all shards at once, each on a thread of its own.
fn drain_together<M: Flier + Send, P: Pace + Sync, R: Threads + Wait + Sync>(
    rt: &R,
    alloc: Global,
    seats: &mut [Seat<'_, M, P, R>],
)
where
    M::Store: Send,
    M::Gate: Send,
    requires rest { (k : ℕ) (d : _) → k < length seats.old → IsAtRest (slice_index_or seats.old k d).session.shards.now (slice_index_or seats.old k d).session.walker.number (slice_index_or seats.old k d).session.walker }
    ensures rest { (k : ℕ) (d : _) → k < length seats.old → IsAtRest (slice_index_or seats.old k d).session.shards.now (slice_index_or seats.old k d).session.walker.number (slice_index_or seats.new k d).session.walker }
{
    if seats.is_empty() {
        return;
    }
    let count = seats.len();
    let body = |_: usize, seat: &mut Seat<'_, M, P, R>|
        requires rest { IsAtRest seat.now.session.shards.now seat.now.session.walker.number seat.now.session.walker }
        ensures rest { IsAtRest seat.entry.now.session.shards.now seat.entry.now.session.walker.number seat.exit.now.session.walker }
    { drain_seat(alloc, seat) };
    thread::for_each_mut(rt, seats, count, &body);
}

// Sessions of all new walkers but walker 0 transfer beside each other, and then these walkers drain.
fn transfer_and_drain<'a, M: Flier + Send, P: Pace + Sync, R: Threads + Wait + Sync>(
    rt: &'a R,
    alloc: Global,
    shards: &'a Shards<M>,
    pace: &'a P,
    walkers: &mut Vec<Walker<M>>,
    room: Vec<Seat<'a, M, P, R>>,
    often: u32,
    tries: u32,
) -> u64
where
    M::Store: Send,
    M::Gate: Send,
    requires some { (0 < vec_len walkers.old) × (vec_len walkers.old ≤ 65) }
    requires splits { are_splits shards.now.splits ≡ true }
    requires new { AreNew shards.now 0 walkers.old.items }
    requires room { (vec_len room ≡ 0) × (vec_len walkers.old ≤ vec_capacity room + 1) }
    ensures len { vec_len walkers.new ≡ vec_len walkers.old }
    ensures rest { AreAtRest shards.now walkers.new.items }
{
    let mut seats = take_seats(rt, alloc, shards, pace, walkers, room);
    let all = seats.as_mut_slice();
    run_together(rt, alloc, all, often, tries);
    drain_together(rt, alloc, all);
    leave_seats(walkers, seats)
}

/// Opens a cluster over the disks of a house, lets so many sessions move one between four keys so often, all beside each other on threads, drains it by
/// their walkers at once, and closes. It gives how many transfers were acknowledged. An `Err` is the first refusal of the opening.
pub fn open_transfer_together_close<
    S: Store + Drop + Send,
    L: Locks + Drop + Send,
    R: Threads + Wait + Sync,
    H: House,
    P: Pace + Sync,
>(
    rt: &R,
    alloc: Global,
    house: &mut H,
    pace: &P,
    sessions: usize,
    often: u32,
    tries: u32,
) -> Result<(u64, Left<S>), OpenError>
where
    H::Disk: Send,
    requires inside { (n : ℕ) → n < 16 → sides_out (H.is_out house.old) n ≡ (false, false) }
    requires few { sessions ≤ 64 }
    ensures ran { IfOk result (λ r. HasRun (sides_told (H.story house.old)) (sides_told (H.story house.new)) (H.faults house.old) (H.faults house.new) r.1.history AnyMade) }
    ensures back { (n : ℕ) → n < 16 → sides_out (H.is_out house.new) n ≡ (false, false) }
    ensures refused { IfErr result (Refuses (sides_told (H.story house.old))) }
    ensures counts { IfErr result (CountsOpen (H.faults house.old) (H.faults house.new)) }
{
    let Ok(room_for_seats) = Vec::with_capacity(alloc, sessions) else {
        return Err(OpenError::Memory);
    };
    let opened = match open_all::<S, L, H>(alloc, house, sessions, 0) {
        Ok(opened) => opened,
        Err(error) => return Err(error),
    };
    let Opened {
        shards,
        mut walkers,
        room,
        found,
    } = opened;
    let moved = transfer_and_drain(
        rt,
        alloc,
        &shards,
        pace,
        &mut walkers,
        room_for_seats,
        often,
        tries,
    );
    let left = close_all::<H, LeanMachine<ShardMachine<S, L, LogGate<H::Disk>>>>(
        alloc, house, shards, walkers, room, found,
    );
    Ok((moved, left))
}
