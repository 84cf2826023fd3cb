// A run, from the disks to the disks.
ghost use Rattle.std.specs.Prelude.{◌≡◌, ◌<◌, ◌≤◌, ℕ, true, false, map, length, IfOk, IfErr};
ghost use Rattle.std.specs.List.{AllByRecursion, list_all};
ghost use Rattle.io_model.specs.Sides.{sides_out, sides_told};
ghost use Rattle.history_replay.specs.Replayed.{replayed};
ghost use Rattle.script_lang.specs.Laws.{is_narrow_body};
ghost use Rattle.cluster_opening.specs.Opening.{Refuses, CountsOpen};
ghost use Rattle.cluster_runs.specs.Begun.{LeavesDisks};
ghost use Rattle.command_line.specs.declared.status.Status.TheVariants.{Fine};
ghost use Rattle.cluster_runs.specs.Books.{HasBooks};
ghost use Rattle.cluster_runs.specs.Histories.{entries};
ghost use Rattle.cluster_runs.specs.Ran.{RanAll};
ghost use Rattle.ordered_store.specs.InTurn.{live_in_turn};

use crate::closing::close_run;
use crate::ran::Ran;
use crate::shards_statements::sessions_have_ended;
use crate::{Opened, Plan, open_all, run_over};
use cluster_closing::Closed;
use cluster_opening::OpenError;
use command_line::running_status;
use history_replay::History;
use io_model::{House, Pace};
use lean_machine::LeanMachine;
use lock_table::Locks;
use log_gate::LogGate;
use ordered_store::Store;
use shard_machine::ShardMachine;
use std::alloc::Global;
use std::sync::Wait;
use std::thread::Threads;

/// Runs the sessions of a script, each on a thread of its own, over all shards of a house: opens, drains, runs them, drains, and closes. Each transaction is
/// tried at most so many times, or without a number until it is done. Every disk is in the house again after it.
///
/// What all shards did is a legal history that keeps the promise of a run. The status is fine only where no shard's flush failed and each session
/// went through, and then each transaction has ended; a disk's fault is of the lowest shard whose flush failed; at worn stamps and at want of memory
/// none failed. Before a session begins each shard was settled, with no entry of a session in its journal so far; and where the first session's
/// first transaction is to run alone, all that other sessions make has stamps past those of its entries. Where the status is fine each shard is
/// settled at the end of its journal, with no active part, and the live pairs of all stores are the map after the acknowledged transactions. The
/// books that its sessions kept tell what the history tells of them, with their rows where the plan keeps them. An `Err` is the first refusal of the
/// opening, as `open_all` tells it; then there is no history.
pub fn run_script<
    S: Store + Drop + Send,
    L: Locks + Drop + Send,
    R: Threads + Wait + Sync,
    H: House,
    P: Pace + Sync,
>(rt: &R, alloc: Global, house: &mut H, pace: &P, plan: Plan<'_>) -> Result<Ran<S>, OpenError>
where
    H::Disk: Send,
    requires inside { (n : ℕ) → n < 16 → sides_out (H.is_out house.old) n ≡ (false, false) }
    requires few { length plan.sessions.now ≤ 64 }
    requires narrow { list_all (list_all is_narrow_body) plan.sessions.now ≡ true }
    ensures ran { IfOk result (λ r. RanAll (sides_told (H.story house.old)) (sides_told (H.story house.new)) (H.faults house.old) (H.faults house.new) plan.entry.most plan.entry.start plan.entry.sessions.now r.history r.status) }
    ensures books { IfOk result (λ r. HasBooks (entries r.history) r.books.items) }
    ensures keeps { IfOk result (λ r. AllByRecursion (λ b. b.keeps ≡ plan.entry.keeps_rows) r.books.items) }
    ensures maps { IfOk result (λ r. r.status ≡ Fine → live_in_turn (map (λ m. S.records m) r.maps.items) ≡ replayed r.history) }
    ensures back { (n : ℕ) → n < 16 → sides_out (H.is_out house.new) n ≡ (false, false) }
    ensures refused { IfErr result (Refuses (sides_told (H.story house.old))) }
    ensures counts { IfErr result (CountsOpen (H.faults house.old) (H.faults house.new)) }
    ensures left { IfErr result (LeavesDisks (sides_told (H.story house.old)) (sides_told (H.story house.new))) }
{
    sessions_have_ended();
    let Ok(mut books) = Vec::with_capacity(alloc, plan.sessions.len()) else {
        return Err(OpenError::Memory);
    };
    let opened = match open_all::<S, L, H>(alloc, house, plan.sessions.len(), 0) {
        Ok(opened) => opened,
        Err(error) => return Err(error),
    };
    let Opened {
        shards,
        mut walkers,
        room,
        found,
    } = opened;
    let end = run_over(rt, alloc, &shards, pace, &mut walkers, plan, &mut books);
    let closed = close_run::<H, LeanMachine<ShardMachine<S, L, LogGate<H::Disk>>>>(
        alloc, house, shards, walkers, room,
    );
    let Closed {
        journals,
        maps,
        down,
        ends: _,
    } = closed;
    Ok(Ran {
        history: History::new(journals, found),
        books,
        maps,
        status: running_status(down, end),
    })
}
