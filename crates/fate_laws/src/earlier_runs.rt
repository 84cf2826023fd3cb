// What becomes of transactions of earlier runs.

ghost use Rattle.fate_laws.specs.Earlier.{EarlierCommitsAreOfOpening, EarlierCommitsAreKnown, EarlierAbortsAreKnown, AbortsStay};

/// At each moment, a transaction of an earlier run that has a COMMIT in any log had one at opening.
pub fn earlier_commits_are_of_opening()
    ensures { EarlierCommitsAreOfOpening }
{}

/// Where a shard tells another of a commit of such a transaction, some log had its COMMIT at opening.
pub fn earlier_commits_are_known()
    ensures { EarlierCommitsAreKnown }
{}

/// Where a shard tells another of an abort of one, no log had.
pub fn earlier_aborts_are_known()
    ensures { EarlierAbortsAreKnown }
{}

/// Where an abort of a transaction of any run is told, no shard has a COMMIT of it then or ever after.
pub fn aborts_stay()
    ensures { AbortsStay }
{}
