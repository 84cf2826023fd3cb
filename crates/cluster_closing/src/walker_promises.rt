// What is left of a disk.
ghost use Rattle.cluster_closing.specs.Left.{LeftMayStand};

/// Where a disk tells its logs, and each of them is one that its shard, which is down, may leave, then so is each log that a restart which failed left on it.
pub fn what_is_left_may_stand()
    ensures { LeftMayStand }
{}
