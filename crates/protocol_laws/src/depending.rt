// Each that depends on another has a part here.

ghost use Rattle.protocol_laws.specs.Depending.{RestartsHaveParts, DueKeepsKeys, DueKeepsParts, EventsKeepParts, LandingKeepsParts};

/// It holds in the state that a log leaves after its RESTART.
pub fn restarts_have_parts()
    ensures { RestartsHaveParts }
{}

/// What is due keeps it.
pub fn due_keeps_parts()
    ensures { DueKeepsParts }
{}

/// What is due leaves the keys of the tables as they are.
pub fn due_keeps_keys()
    ensures { DueKeepsKeys }
{}

/// Each event keeps it.
pub fn events_keep_parts()
    ensures { EventsKeepParts }
{}

/// The end of a flush keeps it, and after a live restart it holds.
pub fn landing_keeps_parts()
    ensures { LandingKeepsParts }
{}
