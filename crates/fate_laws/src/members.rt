// Where a member is found.

ghost use Rattle.fate_laws.specs.FallMembers.{MembersAreHere};

/// Where a COMMIT is left on any shard and a part is left prepared on a shard that the request names, its home among them, that part is
/// committed, or what its PREPARE lists is.
pub fn members_are_here()
    ensures { MembersAreHere }
{}
