// Laws of the promise.

ghost use Rattle.cluster_runs.specs.Following.{LeftLogsAreFound, LastLogsAreFound, LeftLogsAreGood};
ghost use Rattle.cluster_runs.specs.Promises.{ClustersArePromised, RunsArePromised};
ghost use Rattle.cluster_runs.specs.Completing.{SessionsHaveEnded};
ghost use Rattle.cluster_runs.specs.Down.{FailedAreDown, DownStays, LowestDownIsFault};

/// The end of a cluster keeps the promise, whatever its sessions did; and the entries of each walker in its history are its own.
pub fn clusters_are_promised()
    ensures { ClustersArePromised }
{}

/// The end of a cluster, with how its sessions went, is a run that keeps the promise.
pub fn runs_are_promised()
    ensures { RunsArePromised }
{}

/// Each transaction of a session that went through, behind a drain that settled each shard, has ended: it is acknowledged with what its lines
/// ask for, it had nothing to commit, its line `abort` was done after all that stands before it, or as many tries as are wanted were aborted,
/// the last of which died.
pub fn sessions_have_ended()
    ensures { SessionsHaveEnded }
{}

/// Where no shard is stopped or restarted, a shard is down exactly where a flush has failed, which was its last one.
pub fn failed_are_down()
    ensures { FailedAreDown }
{}

/// And once it is down it stays so.
pub fn down_stays()
    ensures { DownStays }
{}

/// The lowest shard that is down at the end of a cluster is the lowest whose disk's count rose.
pub fn lowest_down_is_fault()
    ensures { LowestDownIsFault }
{}

/// Whoever opens the disks that a run left, or what a crash behind its end left of them, finds its splits, and the logs that it left, by a choice for
/// each shard.
pub fn left_logs_are_found()
    ensures { LeftLogsAreFound }
{}

/// Where there was no crash they are the logs that its history ends with.
pub fn last_logs_are_found()
    ensures { LastLogsAreFound }
{}

/// Either way they may be opened together.
pub fn left_logs_are_good()
    ensures { LeftLogsAreGood }
{}
