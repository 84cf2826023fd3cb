// The end of a cluster.
ghost use Rattle.std.specs.Prelude.{◌≡◌, ◌<◌, ◌≤◌, ℕ, true, false, map, vec_len};
ghost use Rattle.std.specs.List.{All};
ghost use Rattle.io_model.specs.Sides.{sides_out, sides_told};
ghost use Rattle.io_model.specs.declared.sides.Sides.{Sides as SidesAre};
ghost use Rattle.turn_lock.specs.Passes.{passes_of};
ghost use Rattle.cluster_turns.specs.Walkers.{founds_of};
ghost use Rattle.cluster_closing.specs.Legal.{AreShards};
ghost use Rattle.cluster_closing.specs.Room.{HasRoom};
ghost use Rattle.cluster_runs.specs.Ends.{IsClosed};
ghost use Rattle.session_examples.specs.Walkers.{AreAtHome, AreAtRest};

use cluster_closing::{Closed, Room, close};
use cluster_turns::{Shards, Walker};
use clv_base::logs::LogRecord;
use history_replay::History;
use io_model::House;
use machine_calls::OverDisks;
use std::alloc::Global;
use std::snapshot::Snapshot;

/// What a cluster leaves: what all shards did, from the logs that were found, the store of each, and the lowest that is down.
#[derive(Drop)]
pub struct Left<S> {
    pub history: History,
    pub maps: Vec<S>,
    pub down: Option<u32>,
}

// Closes the cluster of walkers that have neither a gate nor a disk.
pub(crate) fn close_all<H: House, M: OverDisks<H::Disk>>(
    alloc: Global,
    house: &mut H,
    shards: Shards<M>,
    walkers: Vec<Walker<M>>,
    room: Room<M>,
    found: Snapshot<Vec<Vec<LogRecord>>>,
) -> Left<M::Store>
    requires shards { AreShards shards }
    requires some { 0 < vec_len walkers }
    requires home { AreAtHome shards walkers.items }
    requires all { All (λ l. passes_of l ≡ vec_len walkers) shards.locks.items }
    requires room { HasRoom (vec_len shards.locks) (vec_len walkers) room }
    requires found { map (λ l. l.items) found.value.items ≡ founds_of shards }
    requires out { (n : ℕ) → n < vec_len shards.locks → sides_out (H.is_out house.old) n ≡ (true, true) }
    ensures back { (n : ℕ) → n < vec_len shards.locks → sides_out (H.is_out house.new) n ≡ (false, false) }
    ensures others { (n : ℕ) → vec_len shards.locks ≤ n → sides_out (H.is_out house.new) n ≡ sides_out (H.is_out house.old) n }
    ensures closed { AreAtRest shards walkers.items → (homes : _) × IsClosed (SidesAre H.Disk) (λ m. M.shard m) shards walkers.items homes result.history result.down (H.faults house.old) (H.faults house.new) (sides_out (H.is_out house.old)) (sides_out (H.is_out house.new)) (sides_told (H.story house.old)) (sides_told (H.story house.new)) }
{
    let Closed {
        journals,
        maps,
        down,
        ends: _,
    } = close(house, shards, walkers, Vec::new(alloc), room);
    Left {
        history: History::new(journals, found),
        maps,
        down,
    }
}
