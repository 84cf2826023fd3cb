// What the serial history keeps.

ghost use Rattle.history_laws.specs.Continuing.{NeverTakenBack};

/// Members of a history are members, with the same operations and answers, of every history that goes on from it.
pub fn never_taken_back()
    ensures { NeverTakenBack }
{}
