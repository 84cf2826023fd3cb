// A walker takes the disk.
ghost use Rattle.std.specs.Prelude.{◌≡◌, ◌<◌, length, IfOk};
ghost use Rattle.cluster_turns.specs.Walkers.{IsWalker, IsSameWalker, Walked};
ghost use Rattle.cluster_closing.specs.EndHeld.{FetchTold, DiskTaken, HoldsAt, IsDiskOf};
ghost use Rattle.machine_calls.specs.Disks.{stories_of, faults_of};

use crate::taking::take_disk;
use cluster_turns::{Shards, Walker};
use io_model::Sides;
use machine_calls::Reopener;
use std::sync::Wait;

/// The disk of a shard that is down, and the shard's epoch. It can't be dropped.
pub struct Fetched<D> {
    pub shard: u32,
    pub epoch: u64,
    pub disk: D,
}

/// Why no disk was taken.
#[derive(Clone, Copy, PartialEq, Eq)]
pub enum FetchError {
    /// The shard isn't down.
    Up,
    /// A walker has the disk.
    Away,
}

/// Takes the disk of a shard that is down, which is noted with the walker's number. `Up` comes exactly where the shard isn't down, `Away` exactly where it is
/// and a walker has the disk. Takes no memory.
pub fn fetch<M: Reopener, R: Wait>(
    rt: &R,
    shards: &Shards<M>,
    walker: &mut Walker<M>,
    shard: u32,
) -> Result<Fetched<Sides<M::Disk>>, FetchError>
    requires walker { IsWalker shards.now walker.old }
    requires shard { shard < length shards.now.locks.items }
    ensures walker { IsWalker shards.now walker.new × IsSameWalker walker.old walker.new × (walker.new.clock ≡ walker.old.clock) }
    ensures fetch { Walked (FetchTold walker.old.number result) shard walker.old.number walker.old.passes.items walker.new.passes.items }
    ensures disk { DiskTaken (stories_of M.Disk.story) (faults_of M.Disk.faults) shard walker.old.number walker.new.passes.items result }
    ensures held { IfOk result (λ f. HoldsAt f.shard walker.old.number (λ layout. IsDiskOf (faults_of M.Disk.faults) f) walker.new.passes.items) }
    ensures shard { IfOk result (λ f. f.shard ≡ shard) }
{
    let place = shard as usize;
    let pass = walker.passes[place].take().unwrap();
    let (pass, answer) = take_disk(rt, &shards.locks[place], pass, walker.number);
    walker.passes[place] = Some(pass);
    answer
}
