// A shard stops with a batch in flight.

ghost use Rattle.history_examples.specs.Flight.{StoppedIsLegal, FoundIsLegal, LostIsLegal, CrashDecides, FlightDecides, StoppedGoesOn, RestartChooses, LostHasCause};

/// The history up to the stop is legal, with the batch left in the log and without it.
pub fn stopped_is_legal()
    ensures { StoppedIsLegal }
{}

/// The restart finds the batch, with the COMMIT, and the session is told of success; the history is legal.
pub fn found_is_legal()
    ensures { FoundIsLegal }
{}

/// The restart doesn't find it, and the session is told that the shard was restarted; the history is legal.
pub fn lost_is_legal()
    ensures { LostIsLegal }
{}

/// A crash in place of the restart decides too, and what it leaves may be opened either way.
pub fn crash_decides()
    ensures { CrashDecides }
{}

/// So the transaction is a member, or it never was.
pub fn flight_decides()
    ensures { FlightDecides }
{}

/// The history up to the stop goes on to both.
pub fn stopped_goes_on()
    ensures { StoppedGoesOn }
{}

/// The history up to the restart, which is legal with either log, goes on to the one whose restart left that log, and not to the other.
pub fn restart_chooses()
    ensures { RestartChooses }
{}

/// The cause that the session is told of where it was lost stands.
pub fn lost_has_cause()
    ensures { LostHasCause }
{}
