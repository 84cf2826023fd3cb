// A shard of several with a transaction in doubt at a restart.

ghost use Rattle.history_examples.specs.Doubt.{DoubtIsRestored, DoubtComesBack, DoubtIsCommitted, DoubtIsChosen, DoubtIsFound};

/// A shard is stopped and restarted with a prepared transaction of another home: it is in doubt, and its part is restored.
pub fn doubt_is_restored()
    ensures { DoubtIsRestored }
{}

/// The decision to commit comes after the restart: the transaction is a member, with what it put before.
pub fn doubt_is_committed()
    ensures { DoubtIsCommitted }
{}

/// Before it comes, all that the law of chosen transactions supposes is there where its home's COMMIT chooses it.
pub fn doubt_is_chosen()
    ensures { DoubtIsChosen }
{}

/// And there is one in which it is in doubt again after its abort was taken here, and was lost at the crash.
pub fn doubt_comes_back()
    ensures { DoubtComesBack }
{}

/// A shard is opened from a log that leaves it in doubt, and the decision to commit comes: it is a member, with what it put in the earlier run.
pub fn doubt_is_found()
    ensures { DoubtIsFound }
{}
