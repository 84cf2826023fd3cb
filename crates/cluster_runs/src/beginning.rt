// A cluster begins.
ghost use Rattle.std.specs.Prelude.{◌≡◌, ◌<◌, ◌≤◌, ◌+◌, ℕ, Bool, false, Option, map, vec_len, vec_capacity, slice_index_or, IfOk, IfErr, OnErr};
ghost use Rattle.std.specs.List.{All};
ghost use Rattle.clv_base.specs.Shards.{shard_count};
ghost use Rattle.cluster_turns.specs.Walkers.{founds_of};
ghost use Rattle.io_model.specs.Sides.{Stories, sides_out, sides_told};
ghost use Rattle.log_analysis.specs.Facts.{KnowAll};
ghost use Rattle.cluster_opening.specs.Houses.{WentOut};
ghost use Rattle.cluster_opening.specs.Opening.{Refuses, CountsOpen};
ghost use Rattle.cluster_opening.specs.Made.{IsNewWalker};
ghost use Rattle.cluster_closing.specs.Room.{HasRoom};
ghost use Rattle.cluster_runs.specs.Begun.{AreFound, AreLocked, IsTakenBack, LeavesDisks};

use crate::locking::{Logs, lock_all};
use crate::rooms::take_rooms;
use cluster_closing::Room;
use cluster_opening::{Found, OpenError, give_back_locks, make_walkers, open_disks};
use cluster_turns::{Home, Shards, Walker};
use clv_base::logs::LogRecord;
use io_model::House;
use lean_machine::LeanMachine;
use lock_table::Locks;
use log_gate::LogGate;
use machine_calls::{Machine, OverDisks};
use machine_laws::{Note, Origin};
use ordered_store::Store;
use shard_machine::ShardMachine;
use std::alloc::Global;
use std::snapshot::Snapshot;
use turn_lock::{Pass, TurnLock};

/// A cluster that has begun: its shards, its walkers, and all memory that its end takes.
pub struct Opened<M: Machine> {
    pub shards: Shards<M>,
    /// Walker k stands at k.
    pub walkers: Vec<Walker<M>>,
    pub room: Room<M>,
    /// The log of each shard as it was found, for contracts alone.
    pub found: Snapshot<Vec<Vec<LogRecord>>>,
}

/// A cluster without its room.
struct Begun<M: Machine> {
    shards: Shards<M>,
    walkers: Vec<Walker<M>>,
    passes: Vec<Vec<Pass<Home<M>, Note, Origin>>>,
}

// Takes all shards into their locks, and makes so many walkers. An `Err` gives every disk back.
fn begin<H: House, M: OverDisks<H::Disk>>(
    alloc: Global,
    house: &mut H,
    found: Logs<M::Gate>,
    walkers: usize,
    first: u64,
    locks: Vec<TurnLock<Home<M>>>,
    passes: Vec<Vec<Pass<Home<M>, Note, Origin>>>,
) -> Result<Begun<M>, OpenError>
    requires found { (c : ℕ → ℕ) × (o : ℕ → Bool × Bool) × (s : ℕ → Option Stories) × AreFound M.Gate.is_shut M.Gate.faults M.Gate.shard M.Gate.logs M.story found.splits (map (λ l. l.items) found.logs.items) found.run found.gates.items c (H.faults house.old) o (sides_out (H.is_out house.old)) s (sides_told (H.story house.old)) }
    requires known { KnowAll found.facts.items (map (λ l. l.items) found.logs.items) }
    requires some { (0 < walkers) × (walkers ≤ 65) }
    requires empty { (vec_len locks ≡ 0) × (vec_len passes ≡ 0) }
    requires room { (16 ≤ vec_capacity locks) × (16 ≤ vec_capacity passes) }
    ensures locked { IfOk result (λ b. (c : ℕ → ℕ) (o : ℕ → Bool × Bool) (s : ℕ → Option Stories) → AreFound M.Gate.is_shut M.Gate.faults M.Gate.shard M.Gate.logs M.story found.splits (map (λ l. l.items) found.logs.items) found.run found.gates.items c (H.faults house.old) o (sides_out (H.is_out house.old)) s (sides_told (H.story house.old)) → AreLocked walkers s b.shards) }
    ensures founds { IfOk result (λ b. founds_of b.shards ≡ map (λ l. l.items) found.logs.items) }
    ensures walkers { IfOk result (λ b. (vec_len b.walkers ≡ walkers) × ((k : ℕ) (d : _) → k < walkers → IsNewWalker b.shards k first (slice_index_or b.walkers.items k d))) }
    ensures passes { IfOk result (λ b. (vec_len b.passes ≡ vec_len b.shards.locks) × All (λ r. (vec_len r ≡ 0) × (walkers ≤ vec_capacity r)) b.passes.items) }
    ensures out { IfOk result (λ b. (b.shards.splits ≡ found.splits) × ((n : ℕ) → (H.faults house.new n ≡ H.faults house.old n) × (sides_out (H.is_out house.new) n ≡ sides_out (H.is_out house.old) n) × (sides_told (H.story house.new) n ≡ sides_told (H.story house.old) n))) }
    ensures taken_back { IfErr result (λ e. (c : ℕ → ℕ) (o : ℕ → Bool × Bool) (s : ℕ → Option Stories) → AreFound M.Gate.is_shut M.Gate.faults M.Gate.shard M.Gate.logs M.story found.splits (map (λ l. l.items) found.logs.items) found.run found.gates.items c (H.faults house.old) o (sides_out (H.is_out house.old)) s (sides_told (H.story house.old)) → IsTakenBack c (H.faults house.new) (sides_out (H.is_out house.new)) s (sides_told (H.story house.new)) e) }
{
    let (shards, mut passes) = match lock_all::<H, M>(alloc, house, found, walkers, locks, passes) {
        Ok(locked) => locked,
        Err(error) => return Err(error),
    };
    match make_walkers(alloc, &shards, &mut passes, walkers, first) {
        Ok(walkers) => Ok(Begun {
            shards,
            walkers,
            passes,
        }),
        Err(_) => {
            let Shards {
                locks,
                splits: _,
                run: _,
                batches: _,
                lacking: _,
                left: _,
                staying: _,
                found: _,
            } = shards;
            give_back_locks::<H, M>(house, locks, passes);
            Err(OpenError::Memory)
        }
    }
}

// What was found, and the cluster that has begun over it, without its room.
struct Began<M: Machine> {
    begun: Begun<M>,
    found: Snapshot<Vec<Vec<LogRecord>>>,
}

// Opens the disks, takes all shards into their locks, and makes so many walkers. An `Err` gives every disk back.
fn open_and_begin<S: Store + Drop, L: Locks + Drop, H: House>(
    alloc: Global,
    house: &mut H,
    walkers: usize,
    first: u64,
    locks: Vec<TurnLock<Home<LeanMachine<ShardMachine<S, L, LogGate<H::Disk>>>>>>,
    passes: Vec<Vec<Pass<Home<LeanMachine<ShardMachine<S, L, LogGate<H::Disk>>>>, Note, Origin>>>,
) -> Result<Began<LeanMachine<ShardMachine<S, L, LogGate<H::Disk>>>>, OpenError>
    requires inside { (n : ℕ) → n < 16 → sides_out (H.is_out house.old) n ≡ (false, false) }
    requires some { (0 < walkers) × (walkers ≤ 65) }
    requires empty { (vec_len locks ≡ 0) × (vec_len passes ≡ 0) }
    requires room { (16 ≤ vec_capacity locks) × (16 ≤ vec_capacity passes) }
    ensures locked { IfOk result (λ b. AreLocked walkers (sides_told (H.story house.old)) b.begun.shards) }
    ensures founds { IfOk result (λ b. map (λ l. l.items) b.found.value.items ≡ founds_of b.begun.shards) }
    ensures walkers { IfOk result (λ b. (vec_len b.begun.walkers ≡ walkers) × ((k : ℕ) (d : _) → k < walkers → IsNewWalker b.begun.shards k first (slice_index_or b.begun.walkers.items k d))) }
    ensures passes { IfOk result (λ b. (vec_len b.begun.passes ≡ vec_len b.begun.shards.locks) × All (λ r. (vec_len r ≡ 0) × (walkers ≤ vec_capacity r)) b.begun.passes.items) }
    ensures out { IfOk result (λ b. WentOut (shard_count b.begun.shards.splits) (H.faults house.old) (H.faults house.new) (sides_out (H.is_out house.old)) (sides_out (H.is_out house.new)) (sides_told (H.story house.old)) (sides_told (H.story house.new))) }
    ensures taken_back { IfErr result (IsTakenBack (H.faults house.old) (H.faults house.new) (sides_out (H.is_out house.new)) (sides_told (H.story house.old)) (sides_told (H.story house.new))) }
{
    let opened = match open_disks(alloc, house) {
        Ok(opened) => opened,
        Err(error) => {
            locks.destroy_empty();
            return Err(error);
        }
    };
    let Found {
        splits,
        gates,
        logs,
        facts,
        run,
    } = opened;
    let found = Snapshot::of(&logs);
    let logs = Logs {
        splits,
        gates,
        logs,
        facts,
        run,
    };
    match begin::<H, LeanMachine<ShardMachine<S, L, LogGate<H::Disk>>>>(
        alloc, house, logs, walkers, first, locks, passes,
    ) {
        Ok(begun) => Ok(Began { begun, found }),
        Err(error) => Err(error),
    }
}

/// Opens a cluster over the disks of a house, with so many walkers beside walker 0, whose clocks begin with `first`: disk by disk in rising
/// order its header, its batches and the order of its records, then all logs together, then the next run; then each shard is recovered, and
/// what a restart adds to its log is durable before any shard serves.
///
/// An `Err` is the first refusal, with its place. Then every disk is back, and none was written but by what a restart adds to logs that may
/// be opened.
pub fn open_all<S: Store + Drop, L: Locks + Drop, H: House>(
    alloc: Global,
    house: &mut H,
    walkers: usize,
    first: u64,
) -> Result<Opened<LeanMachine<ShardMachine<S, L, LogGate<H::Disk>>>>, OpenError>
    requires inside { (n : ℕ) → n < 16 → sides_out (H.is_out house.old) n ≡ (false, false) }
    requires few { walkers ≤ 64 }

    // The shards are in their locks, over the logs that the disks held.
    ensures shards { IfOk result (λ o. AreLocked (walkers + 1) (sides_told (H.story house.old)) o.shards) }
    ensures walkers { IfOk result (λ o. (vec_len o.walkers ≡ walkers + 1) × ((k : ℕ) (d : _) → k < walkers + 1 → IsNewWalker o.shards k first (slice_index_or o.walkers.items k d))) }
    ensures founds { IfOk result (λ o. map (λ l. l.items) o.found.value.items ≡ founds_of o.shards) }
    ensures room { IfOk result (λ o. HasRoom (vec_len o.shards.locks) (walkers + 1) o.room) }

    // The disks of the shards are out, and else the house is as it was.
    ensures out { IfOk result (λ o. WentOut (shard_count o.shards.splits) (H.faults house.old) (H.faults house.new) (sides_out (H.is_out house.old)) (sides_out (H.is_out house.new)) (sides_told (H.story house.old)) (sides_told (H.story house.new))) }

    // Where it is refused.
    ensures refused { IfErr result (Refuses (sides_told (H.story house.old))) }
    ensures counts { IfErr result (CountsOpen (H.faults house.old) (H.faults house.new)) }
    ensures back { OnErr result ((n : ℕ) → n < 16 → sides_out (H.is_out house.new) n ≡ (false, false)) }
    ensures left { IfErr result (LeavesDisks (sides_told (H.story house.old)) (sides_told (H.story house.new))) }
{
    let Ok((room, locks)) = take_rooms::<LeanMachine<ShardMachine<S, L, LogGate<H::Disk>>>>(alloc)
    else {
        return Err(OpenError::Memory);
    };
    let Room {
        passes,
        homes,
        journals,
        maps,
    } = room;
    match open_and_begin::<S, L, H>(alloc, house, walkers + 1, first, locks, passes) {
        Ok(began) => {
            let Began { begun, found } = began;
            let Begun {
                shards,
                walkers,
                passes,
            } = begun;
            let room = Room {
                passes,
                homes,
                journals,
                maps,
            };
            Ok(Opened {
                shards,
                walkers,
                room,
                found,
            })
        }
        Err(error) => {
            homes.destroy_empty();
            Err(error)
        }
    }
}
