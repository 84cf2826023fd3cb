// Both sides of a shard, taken out and given back together.
ghost use Rattle.std.specs.Prelude.{◌≡◌, ◌≢◌, ◌+◌, ◌<◌, ℕ, true, false, IfOk, OnOk, OnErr};
ghost use Rattle.io_model.specs.Disk.{HasCause, Adds};
ghost use Rattle.io_model.specs.Sides.{both_told, sides_out, sides_told};

use crate::{Disk, Failed, House};

/// The two sides of a shard's log. One of them is the log; a checkpoint is written on the other.
#[derive(Drop)]
pub struct Sides<D: Disk> {
    pub side0: D,
    pub side1: D,
}

/// Takes both sides of a shard out, with counts of 0. `Failed` leaves both in and raises the house's count for the shard.
pub fn open_sides<H: House>(house: &mut H, shard: u32) -> Result<Sides<H::Disk>, Failed>
    requires shard { shard < 16 }
    requires inside { sides_out (H.is_out house.old) shard ≡ (false, false) }
    ensures opened { IfOk result (λ sides. (H.Disk.faults sides.side0 + H.Disk.faults sides.side1 ≡ 0) × (both_told (H.Disk.story sides.side0) (H.Disk.story sides.side1) ≡ sides_told (H.story house.old) shard)) }
    ensures out { OnOk result (sides_out (H.is_out house.new) shard ≡ (true, true)) }
    ensures stays { OnErr result ((sides_out (H.is_out house.new) shard ≡ (false, false)) × (sides_told (H.story house.new) shard ≡ sides_told (H.story house.old) shard)) }
    ensures cause { HasCause (H.faults house.old shard) (H.faults house.new shard) result }
    ensures others { (other : ℕ) → other ≢ shard → (H.faults house.new other ≡ H.faults house.old other) × (sides_out (H.is_out house.new) other ≡ sides_out (H.is_out house.old) other) × (sides_told (H.story house.new) other ≡ sides_told (H.story house.old) other) }
{
    let side0 = house.open_side(shard, 0)?;
    match house.open_side(shard, 1) {
        Ok(side1) => Ok(Sides { side0, side1 }),
        Err(failed) => {
            house.give_side(shard, 0, side0);
            Err(failed)
        }
    }
}

/// Puts both sides of a shard back, and adds their counts to the house's.
pub fn give_sides<H: House>(house: &mut H, shard: u32, sides: Sides<H::Disk>)
    requires shard { shard < 16 }
    requires out { sides_out (H.is_out house.old) shard ≡ (true, true) }
    ensures adds { Adds (H.faults house.old shard) (H.Disk.faults sides.side0 + H.Disk.faults sides.side1) (H.faults house.new shard) }
    ensures back { sides_out (H.is_out house.new) shard ≡ (false, false) }
    ensures story { sides_told (H.story house.new) shard ≡ both_told (H.Disk.story sides.side0) (H.Disk.story sides.side1) }
    ensures others { (other : ℕ) → other ≢ shard → (H.faults house.new other ≡ H.faults house.old other) × (sides_out (H.is_out house.new) other ≡ sides_out (H.is_out house.old) other) × (sides_told (H.story house.new) other ≡ sides_told (H.story house.old) other) }
{
    let Sides { side0, side1 } = sides;
    house.give_side(shard, 0, side0);
    house.give_side(shard, 1, side1);
}
