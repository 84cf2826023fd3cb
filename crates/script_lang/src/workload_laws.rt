// Laws of workloads.

ghost use Rattle.script_lang.specs.WorkloadLaws.{TheFirstTransfer, TransfersKeepToAccounts, LoadsHaveTheirSessions, LoadsAreNarrow};

/// A transfer is between two different accounts, of 1 to 10.
pub fn transfers_keep_to_accounts()
    ensures { TransfersKeepToAccounts }
{}

/// Of seed 0, the first session's first transfer among 100 accounts goes from account 74.
pub fn the_first_transfer()
    ensures { TheFirstTransfer }
{}

/// A workload has as many sessions as it is made for.
pub fn loads_have_their_sessions()
    ensures { LoadsHaveTheirSessions }
{}

/// Its numbers are within the bounds of scripts.
pub fn loads_are_narrow()
    ensures { LoadsAreNarrow }
{}
