// Who dies, who waits, and for whom.

ghost use Rattle.history_examples.specs.Waiting.{Young_dies, Old_waits, Waits_stand, Request_waits, Offers_none};

/// A younger transaction asks for a key that an older active one holds: it dies, and the answer names the older one.
pub fn younger_requester_dies()
    ensures { Young_dies }
{}

/// An older transaction asks for a key that a younger active one holds: it waits. Once the younger one has closed, it is granted, and the younger
/// one is its predecessor.
pub fn older_requester_waits()
    ensures { Old_waits }
{}

/// The older one waits for the younger one, as the definition of waits has it.
pub fn waits_stand()
    ensures { Waits_stand }
{}

/// A closed part whose predecessor's COMMIT is buffered waits for it by its request; at its home, where it has no predecessor, it does not.
pub fn requests_wait()
    ensures { Request_waits }
{}

/// A transaction with a request offers no operation, and none offers one that skips a number, so they wait for nobody by it.
pub fn some_operations_are_not_offered()
    ensures { Offers_none }
{}
