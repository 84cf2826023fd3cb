//! Names and shards that fit.
ghost use Rattle.machine_laws.specs.Fitting.{FinishesKeepNames, EventsKeepNames, LandingsKeepNames, RestartsAreNamed, SendsFit};

/// What is due keeps them.
pub fn finishes_keep_names()
    ensures { FinishesKeepNames }
{}

/// So does an event that fits.
pub fn events_keep_names()
    ensures { EventsKeepNames }
{}

/// So does the end of a flush.
pub fn landings_keep_names()
    ensures { LandingsKeepNames }
{}

/// After a restart from a log with spellings they fit.
pub fn restarts_are_named()
    ensures { RestartsAreNamed }
{}

/// What is sent fits.
pub fn sends_fit()
    ensures { SendsFit }
{}
