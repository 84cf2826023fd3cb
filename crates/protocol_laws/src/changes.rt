// Which transactions a change may make something due for.

ghost use Rattle.protocol_laws.specs.Purging.{PurgesDontMatter};
ghost use Rattle.protocol_laws.specs.Changes.{CoverGrows, ReleasesChange, RollBacksChange, CommitsChange, EndsChange, ClosesChange, OperationsChange, RollsChange, MarksChange, PurgesChange, FlushesCover};

/// After a change those that it touched are candidates besides.
pub fn cover_grows()
    ensures { CoverGrows }
{}

/// Parts that go change their own facts.
pub fn releases_change()
    ensures { ReleasesChange }
{}

/// An abort changes the facts of those that it takes away.
pub fn roll_backs_change()
    ensures { RollBacksChange }
{}

/// A COMMIT changes its own transaction's facts and its successors'.
pub fn commits_change()
    ensures { CommitsChange }
{}

/// An END changes nobody's.
pub fn ends_change()
    ensures { EndsChange }
{}

/// A part that closes changes its own facts and its successors'.
pub fn closes_change()
    ensures { ClosesChange }
{}

/// A granted operation changes its own transaction's.
pub fn operations_change()
    ensures { OperationsChange }
{}

/// A going back changes its own transaction's.
pub fn rolls_change()
    ensures { RollsChange }
{}

/// The mark of a drop changes nobody's.
pub fn marks_change()
    ensures { MarksChange }
{}

/// Nor do ghosts that go.
pub fn purges_change()
    ensures { PurgesChange }
{}

/// The end of a flush makes candidates of those whose COMMIT, PREPARE, CLR or UNADD it made durable, and of the successors of those with a COMMIT.
pub fn flushes_cover()
    ensures { FlushesCover }
{}

/// Where the writes of those that are here are locked, ghosts without a lock may go before what is due is done.
pub fn purges_dont_matter()
    ensures { PurgesDontMatter }
{}
