// Histories worked out by hand, and what the laws say of them.

ghost use Rattle.history_examples.specs.Worked.{RestartIsLegal, RestartGoesOn, RestartHasNoMember, ViolatedIsLegal, ViolatedHasMembers, FoundIsLegal, FoundHasMembers, OpenedIsSettled};

/// A shard that stops before a flush and is restarted: the history up to the restart is legal, and so is the one with a look after it.
pub fn restart_is_legal()
    ensures { RestartIsLegal }
{}

/// The second goes on from the first: its restart left the same log.
pub fn restart_goes_on()
    ensures { RestartGoesOn }
{}

/// The transaction is no member, and it is told of its abort.
pub fn restart_has_no_member()
    ensures { RestartHasNoMember }
{}

/// A reader violates a writer that has closed, and both are told of success once the writer's COMMIT is durable.
pub fn violated_is_legal()
    ensures { ViolatedIsLegal }
{}

/// The writer is the reader's predecessor, and a member before it.
pub fn violated_has_members()
    ensures { ViolatedHasMembers }
{}

/// A log with a committed transaction and a loser that wrote over it may be opened, and a history from it is legal.
pub fn found_is_legal()
    ensures { FoundIsLegal }
{}

/// Its one member reads nothing where the loser wrote, and replaces the committed value; the map goes from the one to the other.
pub fn found_has_members()
    ensures { FoundHasMembers }
{}

/// A shard that was opened and did nothing is settled.
pub fn opened_is_settled()
    ensures { OpenedIsSettled }
{}
