// Where disks come from, and where they go back.
ghost use Rattle.std.specs.Prelude.{◌≡◌, ◌≢◌, ◌+◌, ◌-◌, ◌^◌, ◌<◌, ◌≤◌, ℕ, Bool, true, false, min, Option, IfOk, OnOk, OnErr};
ghost use Rattle.io_model.specs.Story.{Story};
ghost use Rattle.io_model.specs.Disk.{HasCause, Adds};

use crate::{Disk, Failed};

/// Sixteen places, one for each shard, each with two sides, from which a disk is taken and to which it is given back.
pub trait House {
    type Disk: Disk;

    /// How often one of the shard's disks, or an opening of one, has failed. A disk that is out is counted when it comes back.
    ghost faults: { Self → ℕ → ℕ };

    /// Whether a shard's side is out.
    ghost is_out: { Self → ℕ → ℕ → Bool };

    /// What a side that is in was asked, where it tells that.
    ghost story: { Self → ℕ → ℕ → Option Story };

    /// Takes a side of the shard out, with a count of 0. `Failed` leaves it in and raises the house's count for the shard.
    fn open_side(&mut self, shard: u32, side: u32) -> Result<Self::Disk, Failed>
        requires shard { shard < 16 }
        requires side { side < 2 }
        requires inside { is_out self.old shard side ≡ false }
        ensures opened { IfOk result (λ disk. (Self.Disk.faults disk ≡ 0) × (Self.Disk.story disk ≡ story self.old shard side)) }
        ensures out { OnOk result (is_out self.new shard side ≡ true) }
        ensures stays { OnErr result ((is_out self.new shard side ≡ false) × (story self.new shard side ≡ story self.old shard side)) }
        ensures cause { HasCause (faults self.old shard) (faults self.new shard) result }
        ensures other_side { (is_out self.new shard (1 - side) ≡ is_out self.old shard (1 - side)) × (story self.new shard (1 - side) ≡ story self.old shard (1 - side)) }
        ensures others { (other : ℕ) → other ≢ shard → (faults self.new other ≡ faults self.old other) × ((s : ℕ) → (is_out self.new other s ≡ is_out self.old other s) × (story self.new other s ≡ story self.old other s)) };

    /// Puts a side of the shard back, and adds its count to the house's.
    fn give_side(&mut self, shard: u32, side: u32, disk: Self::Disk)
        requires shard { shard < 16 }
        requires side { side < 2 }
        requires out { is_out self.old shard side ≡ true }
        ensures adds { Adds (faults self.old shard) (Self.Disk.faults disk) (faults self.new shard) }
        ensures back { is_out self.new shard side ≡ false }
        ensures story { story self.new shard side ≡ Self.Disk.story disk }
        ensures other_side { (is_out self.new shard (1 - side) ≡ is_out self.old shard (1 - side)) × (story self.new shard (1 - side) ≡ story self.old shard (1 - side)) }
        ensures others { (other : ℕ) → other ≢ shard → (faults self.new other ≡ faults self.old other) × ((s : ℕ) → (is_out self.new other s ≡ is_out self.old other s) × (story self.new other s ≡ story self.old other s)) };
}
