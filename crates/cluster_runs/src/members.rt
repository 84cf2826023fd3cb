// What the members of a run are that went through.

ghost use Rattle.cluster_runs.specs.Members.{MembersAreOfScript};

/// Each did the lines of a transaction of the script, under the answers that it was told.
pub fn members_are_of_script()
    ensures { MembersAreOfScript }
{}
