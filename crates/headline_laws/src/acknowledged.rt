// Acknowledged transactions.

ghost use Rattle.headline_laws.specs.Acknowledged.{AcknowledgedStand, AcknowledgedAtHome, AcknowledgementsHaveRequests, AcknowledgedAreMembers, AcknowledgedNeverFellAtHome};

/// In a legal history from logs that may be opened: where a transaction is acknowledged, its COMMIT is left at its
/// home, whatever a crash keeps, or it only read.
pub fn acknowledged_stand()
    ensures { AcknowledgedStand }
{}

/// An entry that tells a transaction of its acknowledgement is of its home, where its request was taken.
pub fn acknowledged_at_home()
    ensures { AcknowledgedAtHome }
{}

/// So each acknowledged transaction made its request.
pub fn acknowledgements_have_requests()
    ensures { AcknowledgementsHaveRequests }
{}

/// And it is a member, whatever a crash keeps.
pub fn acknowledged_are_members()
    ensures { AcknowledgedAreMembers }
{}

/// The part of an acknowledged transaction at its home never fell.
pub fn acknowledged_never_fell_at_home()
    ensures { AcknowledgedNeverFellAtHome }
{}
