// Walkers with a pass of each lock.
ghost use Rattle.std.specs.Prelude.{◌≡◌, ◌<◌, ◌≤◌, ◌+◌, ◌-◌, ℕ, Some, IfOk, OnOk, OnErr, length, take, slice_index_or, vec_len, vec_capacity};
ghost use Rattle.std.specs.List.{All};
ghost use Rattle.clv_base.specs.LogRules.{log_of};
ghost use Rattle.clv_base.specs.Restarts.{run_after};
ghost use Rattle.clv_base.specs.Shards.{shard_count};
ghost use Rattle.cluster_turns.specs.Walkers.{founds_of};
ghost use Rattle.cluster_opening.specs.AllOpened.{IsOpenedAt};
ghost use Rattle.cluster_opening.specs.Made.{IsNewWalker};

use cluster_turns::{Home, Shards, Walker};
use machine_calls::Machine;
use machine_laws::{Note, Origin};
use std::alloc::{AllocError, Global};
use turn_lock::Pass;

// The last pass of each lock, taken out.
fn take_column<M: Machine>(
    passes: &mut Vec<Vec<Pass<Home<M>, Note, Origin>>>,
    mut room: Vec<Option<Pass<Home<M>, Note, Origin>>>,
) -> Vec<Option<Pass<Home<M>, Note, Origin>>>
    requires some { (n : ℕ) (d : _) → n < vec_len passes.old → 0 < vec_len (slice_index_or passes.old.items n d) }
    requires room { (vec_len room ≡ 0) × (vec_len passes.old ≤ vec_capacity room) }
    ensures len { (vec_len result ≡ vec_len passes.old) × (vec_len passes.new ≡ vec_len passes.old) }
    ensures taken { (n : ℕ) (d : _) (e : _) (f : _) → n < vec_len passes.old → slice_index_or result.items n e ≡ Some (slice_index_or (slice_index_or passes.old.items n d).items (vec_len (slice_index_or passes.old.items n d) - 1) f) }
    ensures rest { (n : ℕ) (d : _) → n < vec_len passes.old → (slice_index_or passes.new.items n d).items ≡ take (vec_len (slice_index_or passes.old.items n d) - 1) (slice_index_or passes.old.items n d).items }
    ensures capacity { (n : ℕ) (d : _) → n < vec_len passes.old → vec_capacity (slice_index_or passes.new.items n d) ≡ vec_capacity (slice_index_or passes.old.items n d) }
{
    for n in 0..passes.len() {
        room.push_reserved(passes[n].pop());
    }
    room
}

// So many empty lists with room for a pass of each lock.
fn make_rooms<M: Machine>(
    alloc: Global,
    count: usize,
    shards: usize,
) -> Result<Vec<Vec<Option<Pass<Home<M>, Note, Origin>>>>, AllocError>
    ensures len { IfOk result (λ r. vec_len r ≡ count) }
    ensures room { IfOk result (λ r. All (λ v. (vec_len v ≡ 0) × (shards ≤ vec_capacity v)) r.items) }
{
    let mut rooms = Vec::with_capacity(alloc, count)?;
    for _i in 0..count {
        rooms.push_reserved(Vec::with_capacity(alloc, shards)?);
    }
    Ok(rooms)
}

// Walkers for all rooms, in what has room for them.
fn make_all<M: Machine>(
    shards: &Shards<M>,
    passes: &mut Vec<Vec<Pass<Home<M>, Note, Origin>>>,
    mut rooms: Vec<Vec<Option<Pass<Home<M>, Note, Origin>>>>,
    mut walkers: Vec<Walker<M>>,
    first: u64,
) -> Vec<Walker<M>>
    requires few { vec_len rooms ≤ 65 }
    requires shards { (length shards.now.locks.items ≡ shard_count shards.now.splits) × (shards.now.run ≡ run_after (founds_of shards.now)) }
    requires len { vec_len passes.old ≡ vec_len shards.now.locks }
    requires opened { (n : ℕ) (d : _) (e : _) → n < length shards.now.locks.items → IsOpenedAt (record { splits = shards.now.splits }) shards.now.run (vec_len rooms) n (log_of (founds_of shards.now) n) (slice_index_or shards.now.locks.items n d) (slice_index_or passes.old.items n e).items }
    requires rooms { All (λ r. (vec_len r ≡ 0) × (vec_len passes.old ≤ vec_capacity r)) rooms.items }
    requires walkers { (vec_len walkers ≡ 0) × (vec_len rooms ≤ vec_capacity walkers) }
    ensures len { vec_len result ≡ vec_len rooms }
    ensures made { (k : ℕ) (d : _) → k < vec_len result → IsNewWalker shards.now k first (slice_index_or result.items k d) }
    ensures emptied { (vec_len passes.new ≡ vec_len passes.old) × All (λ r. (vec_len r ≡ 0) × (vec_len rooms ≤ vec_capacity r)) passes.new.items }
{
    let count = rooms.len();
    for i in 0..count {
        let room = rooms.pop().unwrap();
        let mine = take_column(passes, room);
        let number = (count - 1 - i) as u32;
        walkers.push_reserved(Walker::new(shards, number, first, mine));
    }
    walkers.reverse();
    walkers
}

/// Makes so many walkers out of the new passes of all locks: walker k, from 0, has pass k of each lock, and its clock begins with `first`. The emptied lists
/// of passes are room for those of all walkers again.
///
/// `AllocError` comes before a pass is moved: then all stand where they were.
pub fn make_walkers<M: Machine>(
    alloc: Global,
    shards: &Shards<M>,
    passes: &mut Vec<Vec<Pass<Home<M>, Note, Origin>>>,
    count: usize,
    first: u64,
) -> Result<Vec<Walker<M>>, AllocError>
    requires few { count ≤ 65 }
    requires shards { (length shards.now.locks.items ≡ shard_count shards.now.splits) × (shards.now.run ≡ run_after (founds_of shards.now)) }
    requires len { vec_len passes.old ≡ vec_len shards.now.locks }
    requires opened { (n : ℕ) (d : _) (e : _) → n < length shards.now.locks.items → IsOpenedAt (record { splits = shards.now.splits }) shards.now.run count n (log_of (founds_of shards.now) n) (slice_index_or shards.now.locks.items n d) (slice_index_or passes.old.items n e).items }
    ensures len { IfOk result (λ w. vec_len w ≡ count) }
    ensures made { IfOk result (λ w. (k : ℕ) (d : _) → k < count → IsNewWalker shards.now k first (slice_index_or w.items k d)) }
    ensures rooms { OnOk result ((vec_len passes.new ≡ vec_len passes.old) × All (λ r. (vec_len r ≡ 0) × (count ≤ vec_capacity r)) passes.new.items) }
    ensures unmoved { OnErr result (passes.new ≡ passes.old) }
{
    let rooms = make_rooms::<M>(alloc, count, passes.len())?;
    let walkers = Vec::with_capacity(alloc, count)?;
    Ok(make_all(shards, passes, rooms, walkers, first))
}
