// The end of a cluster, as one call.
ghost use Rattle.std.specs.Prelude.{◌≡◌, ◌<◌, ◌≤◌, ℕ, true, List, map, length, slice_index_or, vec_len};
ghost use Rattle.std.specs.List.{All};
ghost use Rattle.clv_base.specs.declared.logs.LogRecord.{LogRecord};
ghost use Rattle.clv_base.specs.Shards.{shard_count};
ghost use Rattle.clv_base.specs.LogRules.{log_of};
ghost use Rattle.clv_base.specs.Journals.{MayLeave};
ghost use Rattle.io_model.specs.Sides.{sides_out, sides_told};
ghost use Rattle.history_replay.specs.Entries.{entries_of};
ghost use Rattle.journal_laws.specs.Gathered.{MakesHistory};
ghost use Rattle.turn_lock.specs.Passes.{passes_of};
ghost use Rattle.machine_laws.specs.Notes.{notes_of};
ghost use Rattle.machine_laws.specs.Homes.{never_stops, IsLegal};
ghost use Rattle.cluster_turns.specs.Walkers.{IsWalker, founds_of};
ghost use Rattle.cluster_closing.specs.Landed.{HasLanded};
ghost use Rattle.cluster_closing.specs.Held.{FetchedNone, never_restarts};
ghost use Rattle.cluster_closing.specs.Ends.{HaveDisks};
ghost use Rattle.cluster_closing.specs.Ending.{ClosedAt};
ghost use Rattle.cluster_closing.specs.Legal.{AreShards, state_at, views_of};
ghost use Rattle.cluster_closing.specs.Room.{HasRoom};
ghost use Rattle.cluster_closing.specs.Closing.{IsBack, IsLowestDown, lists};
ghost use Rattle.machine_calls.specs.Disks.{stories_of, faults_of};

use crate::leaving::Closed;
use crate::parting::{Lists, lowest_down, part_all};
use crate::returning::give_back_held;
use crate::{Fetched, Room};
use cluster_turns::{Shards, Walker};
use io_model::{House, Sides};
use machine_calls::{Machine, OverDisks};
use ordered_store::Store;
use std::snapshot::Snapshot;

/// Closes a cluster with all its walkers, none of which has a gate, and the disks that they fetched, and gives every disk back. Takes
/// no memory.
///
/// The journals are a legal history from the logs found to any logs that the shards may leave, and each walker's entries in them are
/// its own. Each log that a disk has, in what a read gives and in whatever a crash now leaves, is one that its shard may leave, and
/// the disk has failed exactly where a flush has.
pub fn close<H: House, M: OverDisks<H::Disk>>(
    house: &mut H,
    shards: Shards<M>,
    walkers: Vec<Walker<M>>,
    fetched: Vec<Fetched<Sides<H::Disk>>>,
    room: Room<M>,
) -> Closed<M>
    requires shards { AreShards shards }
    requires some { 0 < vec_len walkers }
    requires walkers { (k : ℕ) (d : _) → k < length walkers.items → IsWalker shards (slice_index_or walkers.items k d) }
    requires all { All (λ l. passes_of l ≡ vec_len walkers) shards.locks.items }
    requires landed { (k : ℕ) (d : _) → k < length walkers.items → HasLanded (slice_index_or walkers.items k d).number (slice_index_or walkers.items k d).passes.items }
    requires fetched { HaveDisks (stories_of H.Disk.story) (faults_of H.Disk.faults) walkers.items fetched.items }
    requires room { HasRoom (vec_len shards.locks) (vec_len walkers) room }
    requires out { (n : ℕ) → n < vec_len shards.locks → sides_out (H.is_out house.old) n ≡ (true, true) }
    ensures len { (vec_len result.ends.value ≡ vec_len shards.locks) × (vec_len result.journals ≡ vec_len shards.locks) × (vec_len result.maps ≡ vec_len shards.locks) }
    ensures shard { (n : ℕ) (d : _) → n < vec_len shards.locks → (M.shard (slice_index_or result.ends.value.items n d).machine).shard ≡ n }
    ensures closed { (n : ℕ) (d : _) → n < vec_len shards.locks → ClosedAt walkers.items n (slice_index_or result.ends.value.items n d).origin (notes_of (M.shard (slice_index_or result.ends.value.items n d).machine).journal (slice_index_or result.ends.value.items n d).marks.items) }
    ensures noted { (n : ℕ) (d : _) → n < vec_len shards.locks → IsLegal (slice_index_or result.ends.value.items n d).origin (notes_of (M.shard (slice_index_or result.ends.value.items n d).machine).journal (slice_index_or result.ends.value.items n d).marks.items) (M.shard (slice_index_or result.ends.value.items n d).machine) }
    ensures journals { lists result.journals.items ≡ map (λ h. (M.shard h.machine).journal) result.ends.value.items }
    ensures maps { (n : ℕ) (d : _) (e : _) → n < vec_len shards.locks → M.Store.records (slice_index_or result.maps.items n d) ≡ (M.shard (slice_index_or result.ends.value.items n e).machine).local.records }
    ensures down { IsLowestDown (λ h. (M.shard h.machine).is_up) result.ends.value.items result.down }
    ensures no_stop { (n : ℕ) (d : _) → n < vec_len shards.locks → never_stops (M.shard (slice_index_or result.ends.value.items n d).machine).journal ≡ true }

    // Where no walker ever took a disk.
    ensures no_restart { ((k : ℕ) (d : _) → k < length walkers.items → FetchedNone (slice_index_or walkers.items k d).passes.items) → (n : ℕ) (d : _) → n < vec_len shards.locks → never_restarts (M.shard (slice_index_or result.ends.value.items n d).machine).journal ≡ true }
    ensures legal { (after : List (List LogRecord)) → length after ≡ shard_count shards.splits → ((n : ℕ) → n < shard_count shards.splits → MayLeave (state_at (λ h. M.shard h.machine) (founds_of shards) result.ends.value.items n) (log_of after n))
        → MakesHistory shards.splits (founds_of shards) after (lists result.journals.items) (state_at (λ h. M.shard h.machine) (founds_of shards) result.ends.value.items) (λ w. entries_of (views_of walkers.items w)) }

    // All disks are in again.
    ensures disks { (n : ℕ) (d : _) → n < vec_len shards.locks → IsBack (M.shard (slice_index_or result.ends.value.items n d).machine) n (record { splits = shards.splits }) fetched.items (H.faults house.old n) (H.faults house.new n) (sides_out (H.is_out house.new) n) (sides_told (H.story house.new) n) }
    ensures others { (n : ℕ) → vec_len shards.locks ≤ n → (H.faults house.new n ≡ H.faults house.old n) × (sides_out (H.is_out house.new) n ≡ sides_out (H.is_out house.old) n) × (sides_told (H.story house.new) n ≡ sides_told (H.story house.old) n) }
{
    let Room {
        passes,
        homes,
        journals,
        maps,
    } = room;
    let room = Lists { journals, maps };
    let homes = crate::lock_ends::close(shards, walkers, passes, homes);
    let ends = Snapshot::of(&homes);
    let down = lowest_down(homes.as_slice());
    let Lists { journals, maps } = part_all::<H, M>(house, homes, room);
    give_back_held(house, fetched);
    Closed {
        journals,
        maps,
        down,
        ends,
    }
}
