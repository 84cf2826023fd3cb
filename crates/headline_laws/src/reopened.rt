// What a crash leaves, and what the next opening finds, may be opened.

ghost use Rattle.headline_laws.specs.Reopening.{LogsLeftAgree, LogsLeftMayBeOpened};
ghost use Rattle.headline_laws.specs.Ends.{LogsAtTheEndMayBeOpened, LogsAtTheEndAreWhatIsLeft};

/// Whatever is in doubt at opening, and whatever a crash keeps of what is in flight: the logs left agree on each transaction that is committed in
/// some of them. On its home is the COMMIT; each other shard with a record of it is one of the parts that the COMMIT names; each part is prepared
/// for that home and not aborted, with all that its PREPARE lists committed; and where the home has an END, each part is committed.
pub fn logs_left_agree()
    ensures { LogsLeftAgree }
{}

/// So they may be opened again: homes, parts and keys pass, each log is in order, and the logs agree.
pub fn logs_left_may_be_opened()
    ensures { LogsLeftMayBeOpened }
{}

/// What the next opening finds, the logs at the end of a legal history, may be opened too: on each shard that is what a crash leaves, and while the
/// shard is down what restarts that failed added to it.
pub fn logs_at_the_end_may_be_opened()
    ensures { LogsAtTheEndMayBeOpened }
{}

/// By some choice of what is kept of what is in flight, the logs at the end tell the same as those that a crash leaves: they stand for one map, have
/// the same members, and commit the same on each shard.
pub fn logs_at_the_end_are_what_is_left()
    ensures { LogsAtTheEndAreWhatIsLeft }
{}
