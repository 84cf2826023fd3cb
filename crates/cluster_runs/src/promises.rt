// A cluster that was opened and closed. `M`, `S` and `G` are a machine, its store and its gate, `D` is a disk.
ghost use Rattle.cluster_runs.specs.Laws.{ClustersEnd, ClustersKeep, OthersStand, AllAreIn, RunsKeep, SessionsHaveGone, StatusesTell, DisksTell, FlushesTell, DownsTell};

/// What it leaves is the end of a cluster: a legal history, and disks that hold what its shards' states say.
pub fn clusters_end<M, S, G, D>()
    ensures { ClustersEnd M S G D }
{}

/// It keeps the promise, whatever its sessions did.
pub fn clusters_keep<M, S, G, D>()
    ensures { ClustersKeep M S G D }
{}

/// Disks that are no shard's are as they were.
pub fn others_stand<M, S, G, D>()
    ensures { OthersStand M S G D }
{}

/// All disks of the house are in again.
pub fn all_are_in<M, S, G, D>()
    ensures { AllAreIn M S G D }
{}

/// With how its sessions went it is a run that keeps the promise.
pub fn runs_keep<M, S, G, D>()
    ensures { RunsKeep M S G D }
{}

/// What each walker kept of its session is how the sessions of the script went.
pub fn sessions_have_gone<M, S, G>()
    ensures { SessionsHaveGone M S G }
{}

/// Its status tells which disk failed first, or that none did, and where it is fine that all sessions went through.
pub fn statuses_tell<M, S, G, D>()
    ensures { StatusesTell M S G D }
{}

/// And so of the disks alone, whatever the sessions were.
pub fn disks_tell<M, S, G, D>()
    ensures { DisksTell M S G D }
{}

/// And whether a shard's flush failed, and which one's.
pub fn flushes_tell<M, S, G, D>()
    ensures { FlushesTell M S G D }
{}

/// A shard that a walker has seen down is one whose flush failed.
pub fn downs_tell<M, S, G, D>()
    ensures { DownsTell M S G D }
{}
