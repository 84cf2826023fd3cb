// What an opening that was refused has added.
ghost use Rattle.cluster_runs.specs.Added.{BegunStandForTheSame};

/// Logs that may be opened together, to which restarts that were refused have added, stand for the same map as those that were found.
pub fn begun_logs_stand_for_the_same()
    ensures { BegunStandForTheSame }
{}
