// The laws.

ghost use Rattle.due_step.specs.Landing.{LandedCovers};
ghost use Rattle.due_step.specs.Noting.{NotedCovers, DoomedHaveRoom, KnownHaveRoom};

/// After the durable front rose, those whom the records below it concern are candidates besides.
pub fn landed_covers()
    ensures { LandedCovers }
{}

/// After what was found was carried out, those whom `note_touched` put in are candidates besides.
pub fn noted_covers()
    ensures { NotedCovers }
{}

/// Room for all with a part here and for the transaction is room for those that it dooms.
pub fn doomed_have_room()
    ensures { DoomedHaveRoom }
{}

/// Room for as many as there are parts, voters and requests is room for those that any of them dooms.
pub fn known_have_room()
    ensures { KnownHaveRoom }
{}
