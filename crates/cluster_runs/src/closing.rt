// The end of a run's cluster.
ghost use Rattle.std.specs.Prelude.{◌≡◌, ◌<◌, ℕ, true, length, slice_index_or, vec_len};
ghost use Rattle.std.specs.List.{All};
ghost use Rattle.io_model.specs.Sides.{sides_out, sides_told};
ghost use Rattle.io_model.specs.declared.sides.Sides.{Sides as SidesAre};
ghost use Rattle.turn_lock.specs.Passes.{passes_of};
ghost use Rattle.cluster_turns.specs.Walkers.{founds_of};
ghost use Rattle.cluster_closing.specs.Legal.{AreShards};
ghost use Rattle.cluster_closing.specs.Room.{HasRoom};
ghost use Rattle.cluster_closing.specs.Closing.{lists};
ghost use Rattle.session_api.specs.Standing.{IsAtRest};
ghost use Rattle.cluster_runs.specs.Ends.{IsClosed};

use cluster_closing::{Closed, Room, close};
use cluster_turns::{Shards, Walker};
use io_model::House;
use machine_calls::OverDisks;
use ordered_store::Store;
use std::alloc::Global;

/// Closes the cluster of walkers that have no gate and never took a disk.
pub fn close_run<H: House, M: OverDisks<H::Disk>>(
    alloc: Global,
    house: &mut H,
    shards: Shards<M>,
    walkers: Vec<Walker<M>>,
    room: Room<M>,
) -> Closed<M>
    requires shards { AreShards shards }
    requires some { 0 < vec_len walkers }
    requires rest { (k : ℕ) (d : _) → k < length walkers.items → IsAtRest shards k (slice_index_or walkers.items k d) }
    requires all { All (λ l. passes_of l ≡ vec_len walkers) shards.locks.items }
    requires room { HasRoom (vec_len shards.locks) (vec_len walkers) room }
    requires out { (n : ℕ) → n < vec_len shards.locks → sides_out (H.is_out house.old) n ≡ (true, true) }
    ensures closed { IsClosed (SidesAre H.Disk) (λ m. M.shard m) shards walkers.items result.ends.value.items (record { journals = lists result.journals.items; found = founds_of shards }) result.down (H.faults house.old) (H.faults house.new) (sides_out (H.is_out house.old)) (sides_out (H.is_out house.new)) (sides_told (H.story house.old)) (sides_told (H.story house.new)) }
    ensures maps { (n : ℕ) (d : _) (e : _) → n < vec_len shards.locks → M.Store.records (slice_index_or result.maps.items n d) ≡ (M.shard (slice_index_or result.ends.value.items n e).machine).local.records }
    ensures len { (vec_len result.journals ≡ vec_len shards.locks) × (vec_len result.maps ≡ vec_len shards.locks) }
{
    close(house, shards, walkers, Vec::new(alloc), room)
}
