// What is decided, and what stays of it.

ghost use Rattle.fate_laws.specs.Decisions.{CommitsStandAtHome, ToldCommitsStay, ToldAbortsStay};
ghost use Rattle.fate_laws.specs.Members.{CommitsAreMembers};

/// Where a COMMIT of a transaction of this run is left on any shard, one is left at its home.
pub fn commits_stand_at_home()
    ensures { CommitsStandAtHome }
{}

/// Where a commit of a transaction of this run was told to another shard, the COMMIT at its home stays.
pub fn told_commits_stay()
    ensures { ToldCommitsStay }
{}

/// Where an abort of a transaction of this run was told to another shard, no shard has a COMMIT of it.
pub fn told_aborts_stay()
    ensures { ToldAbortsStay }
{}

/// A transaction of this run whose COMMIT is left on any shard is a member.
pub fn commits_are_members()
    ensures { CommitsAreMembers }
{}
