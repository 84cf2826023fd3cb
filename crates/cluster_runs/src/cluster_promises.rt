// Disks after a close.
ghost use Rattle.cluster_runs.specs.ClusterLaws.{ClosedDisksHold, LeftDisksHold, DownAfterFailed};

/// The last flush of a shard that is down at the end of its notes failed.
pub fn down_after_failed()
    ensures { DownAfterFailed }
{}

/// A disk that has what its shard may leave holds what the promise of a run says.
pub fn left_disks_hold()
    ensures { LeftDisksHold }
{}

/// The disks of a cluster that was closed hold by its history what the promise of a run says.
pub fn closed_disks_hold()
    ensures { ClosedDisksHold }
{}
