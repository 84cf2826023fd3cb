// Disks that come back.

ghost use Rattle.std.specs.Prelude.{◌≡◌, ◌<◌, ◌≤◌, ℕ, true, vec_len, slice_index_or};
ghost use Rattle.io_model.specs.Sides.{sides_out, sides_told};
ghost use Rattle.cluster_opening.specs.Houses.{CameBack};

use io_model::{House, give_sides};
use log_gate::LogGate;

/// Gives the disks of the first shards back, out of their gates.
pub fn give_back_all<H: House>(house: &mut H, gates: Vec<LogGate<H::Disk>>)
    requires few { vec_len gates ≤ 16 }
    requires out { (n : ℕ) → n < vec_len gates → sides_out (H.is_out house.old) n ≡ (true, true) }
    ensures back { (n : ℕ) (d : _) → n < vec_len gates → CameBack (slice_index_or gates.items n d) (H.faults house.old n) (H.faults house.new n) (sides_out (H.is_out house.new) n) (sides_told (H.story house.new) n) }
    ensures others { (n : ℕ) → vec_len gates ≤ n → (H.faults house.new n ≡ H.faults house.old n) × (sides_out (H.is_out house.new) n ≡ sides_out (H.is_out house.old) n) × (sides_told (H.story house.new) n ≡ sides_told (H.story house.old) n) }
{
    let mut gates = gates;
    while let Some(gate) = gates.pop() {
        let shard = gates.len() as u32;
        give_sides(house, shard, gate.into_sides());
    }
    gates.destroy_empty();
}
