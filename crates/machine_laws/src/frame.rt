//! What is due, and what each event makes, is the same whatever the journal, the last stamp and whether the shard is up.
ghost use Rattle.machine_laws.specs.Frame.{FinishesAlike, EventsAlike, RollsAlike, LooksAlike, FinishesStay, EventsStay};

/// All that is due is done alike.
pub fn finishes_alike()
    ensures { FinishesAlike }
{}

/// Each event makes the same, but a going back, a look and a stop.
pub fn events_alike()
    ensures { EventsAlike }
{}

/// A going back makes what the number of writes that the journal tells makes of it.
pub fn rolls_alike()
    ensures { RollsAlike }
{}

/// A look makes what the epoch that the journal tells makes of it.
pub fn looks_alike()
    ensures { LooksAlike }
{}

/// The shard keeps its number, and what is in flight stays in flight, while all that is due is done.
pub fn finishes_stay()
    ensures { FinishesStay }
{}

/// And through each event but the start of a flush.
pub fn events_stay()
    ensures { EventsStay }
{}
