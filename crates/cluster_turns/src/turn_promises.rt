// What turns make of what a walker keeps.
ghost use Rattle.cluster_turns.specs.WalkerLaws.{TurnsFollow, KeptGrows, EntriesAreMade, ClockRises};
ghost use Rattle.cluster_turns.specs.Answers.{AnswersHaveEntries, OutcomesFit, DownIsSeen, WornIsLast, SessionsGrow};
ghost use Rattle.cluster_turns.specs.Dates.{TurnsAreDated, DrainsAreDated, DrainsWearOut};

/// Turns after turns are turns.
pub fn turns_follow<T>()
    ensures { TurnsFollow T }
{}

/// What the walker keeps grows by the entries that its turns made.
pub fn kept_grows<T>()
    ensures { KeptGrows T }
{}

/// Each is the walker's, of its turn's event, with what that was answered.
pub fn entries_are_made<T>()
    ensures { EntriesAreMade T }
{}

/// The clock never falls.
pub fn clock_rises<T>()
    ensures { ClockRises T }
{}

/// A turn made an entry exactly where its answer isn't quiet, and no error.
pub fn answers_have_entries<T>()
    ensures { AnswersHaveEntries T }
{}

/// What a turn was answered is an outcome of its event.
pub fn outcomes_fit<T>()
    ensures { OutcomesFit T }
{}

/// Where a turn found a shard down, or put it down, the walker has then seen it down.
pub fn down_is_seen<T>()
    ensures { DownIsSeen T }
{}

/// Where an event of one would have had a stamp past the last, the clock is at its end.
pub fn worn_is_last<T>()
    ensures { WornIsLast T }
{}

/// What the walker keeps of its session grows by the entries of those turns that only sessions take.
pub fn sessions_grow<T>()
    ensures { SessionsGrow T }
{}

/// The clock rises no further than the stamps that the walker has seen.
pub fn turns_are_dated<T>()
    ensures { TurnsAreDated T }
{}

/// So it does in a drain.
pub fn drains_are_dated<T>()
    ensures { DrainsAreDated T }
{}

/// Where a drain found a stamp past the last, the clock is at its end.
pub fn drains_wear_out<T>()
    ensures { DrainsWearOut T }
{}
