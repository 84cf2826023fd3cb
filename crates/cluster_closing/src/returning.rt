// Disks that walkers had.
ghost use Rattle.std.specs.Prelude.{◌≡◌, ◌<◌, ◌≢◌, ℕ, true, vec_len, slice_index_or};
ghost use Rattle.io_model.specs.Sides.{sides_out, sides_told};
ghost use Rattle.cluster_closing.specs.Ends.{shard_at, IsNotAmong};
ghost use Rattle.cluster_closing.specs.Closing.{Returned};
ghost use Rattle.machine_calls.specs.Disks.{stories_of, faults_of};

use crate::Fetched;
use io_model::{House, Sides, give_sides};

// Gives the disks back that were fetched, each of another shard.
pub(crate) fn give_back_held<H: House>(house: &mut H, fetched: Vec<Fetched<Sides<H::Disk>>>)
    requires few { (j : ℕ) (f : _) → j < vec_len fetched → shard_at fetched.items j f < 16 }
    requires apart { (i j : ℕ) (f : _) → i < j → j < vec_len fetched → shard_at fetched.items i f ≢ shard_at fetched.items j f }
    requires out { (j : ℕ) (f : _) → j < vec_len fetched → sides_out (H.is_out house.old) (shard_at fetched.items j f) ≡ (true, true) }
    ensures back { (j : ℕ) (f : _) → j < vec_len fetched → Returned (stories_of H.Disk.story) (faults_of H.Disk.faults) (slice_index_or fetched.items j f).disk (H.faults house.old (shard_at fetched.items j f)) (H.faults house.new (shard_at fetched.items j f)) (sides_out (H.is_out house.new) (shard_at fetched.items j f)) (sides_told (H.story house.new) (shard_at fetched.items j f)) }
    ensures others { (n : ℕ) → IsNotAmong n fetched.items → (H.faults house.new n ≡ H.faults house.old n) × (sides_out (H.is_out house.new) n ≡ sides_out (H.is_out house.old) n) × (sides_told (H.story house.new) n ≡ sides_told (H.story house.old) n) }
{
    let mut fetched = fetched;
    while let Some(held) = fetched.pop() {
        let Fetched {
            shard,
            epoch: _,
            disk,
        } = held;
        give_sides(house, shard, disk);
    }
    fetched.destroy_empty();
}
