// What an opening refuses.

ghost use Rattle.cluster_opening.specs.Accepted.{GoodLogsAreNotRefused};

/// Logs that may be opened together are refused neither as no logs nor as apart.
pub fn good_logs_are_not_refused()
    ensures { GoodLogsAreNotRefused }
{}
