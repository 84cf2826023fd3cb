// A transfer, from the disks to the disks.
ghost use Rattle.std.specs.Prelude.{◌≡◌, ◌≢◌, ◌<◌, ℕ, true, false, vec_len, IfOk, IfErr};
ghost use Rattle.clv_base.specs.Shards.{are_splits};
ghost use Rattle.io_model.specs.Sides.{sides_out, sides_told};
ghost use Rattle.cluster_opening.specs.Opening.{Refuses, CountsOpen};
ghost use Rattle.cluster_runs.specs.Begun.{LeavesDisks};
ghost use Rattle.cluster_runs.specs.Ends.{walked_by};
ghost use Rattle.session_examples.specs.Walkers.{AreNew, AreAtRest};
ghost use Rattle.session_examples.specs.Programs.{HasRun, HasMade};

use crate::closing::{Left, close_all};
use crate::sitting::{leave, sit};
use crate::{Stop, Transferred, transfer};
use cluster_opening::OpenError;
use cluster_runs::{Opened, open_all};
use cluster_turns::{Shards, Walker};
use io_model::{House, Pace};
use lean_machine::LeanMachine;
use lock_table::Locks;
use log_gate::LogGate;
use machine_calls::Flier;
use ordered_store::Store;
use shard_machine::ShardMachine;
use std::alloc::Global;
use std::sync::Wait;

// Moves an amount by a session of the second of two new walkers.
fn transfer_once<M: Flier, P: Pace, R: Wait>(
    rt: &R,
    alloc: Global,
    shards: &Shards<M>,
    pace: &P,
    walkers: &mut Vec<Walker<M>>,
    from: u64,
    to: u64,
    amount: u64,
    tries: u32,
) -> Result<Transferred, Stop>
    requires splits { are_splits shards.now.splits ≡ true }
    requires two { vec_len walkers.old ≡ 2 }
    requires new { AreNew shards.now 0 walkers.old.items }
    requires apart { from ≢ to }
    ensures two { vec_len walkers.new ≡ 2 }
    ensures rest { AreAtRest shards.now walkers.new.items }
    ensures made { HasMade from to amount result shards.now.splits (walked_by walkers.new.items) }
{
    let mut session = sit(rt, alloc, shards, pace, walkers);
    let transferred = transfer(alloc, &mut session, from, to, amount, tries);
    leave(walkers, session);
    transferred
}

/// Opens a cluster over the disks of a house, moves an amount from one key to another in at most so many tries of one session, and closes.
/// Every disk is in the house again after it.
///
/// What the shards did is a legal history from the logs that the disks held, and where the session is told that the amount is moved, the last
/// entries that it made in this history are those of the transfer: both reads, of which the first found enough, both writes, the request, and
/// the look that was told of its acknowledgement. An `Err` is the first refusal of the opening, as `open_all` tells it.
pub fn open_transfer_close<S: Store + Drop, L: Locks + Drop, R: Wait, H: House, P: Pace>(
    rt: &R,
    alloc: Global,
    house: &mut H,
    pace: &P,
    from: u64,
    to: u64,
    amount: u64,
    tries: u32,
) -> Result<(Result<Transferred, Stop>, Left<S>), OpenError>
    requires inside { (n : ℕ) → n < 16 → sides_out (H.is_out house.old) n ≡ (false, false) }
    requires apart { from ≢ to }
    ensures ran { IfOk result (λ r. HasRun (sides_told (H.story house.old)) (sides_told (H.story house.new)) (H.faults house.old) (H.faults house.new) r.1.history (HasMade from to amount r.0)) }
    ensures back { (n : ℕ) → n < 16 → sides_out (H.is_out house.new) n ≡ (false, false) }
    ensures refused { IfErr result (Refuses (sides_told (H.story house.old))) }
    ensures counts { IfErr result (CountsOpen (H.faults house.old) (H.faults house.new)) }
    ensures left { IfErr result (LeavesDisks (sides_told (H.story house.old)) (sides_told (H.story house.new))) }
{
    let opened = match open_all::<S, L, H>(alloc, house, 1, 0) {
        Ok(opened) => opened,
        Err(error) => return Err(error),
    };
    let Opened {
        shards,
        mut walkers,
        room,
        found,
    } = opened;
    let transferred = transfer_once(
        rt,
        alloc,
        &shards,
        pace,
        &mut walkers,
        from,
        to,
        amount,
        tries,
    );
    let left = close_all::<H, LeanMachine<ShardMachine<S, L, LogGate<H::Disk>>>>(
        alloc, house, shards, walkers, room, found,
    );
    Ok((transferred, left))
}
