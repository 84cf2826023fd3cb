// Members of streams.

ghost use Rattle.standby_base.specs.Standby.{MembersAreGreatest};

/// Each member is whole, and on each of its streams all with an earlier COMMIT are members; and each set of transactions of which this holds is
/// among the members.
pub fn members_are_greatest()
    ensures { MembersAreGreatest }
{}
