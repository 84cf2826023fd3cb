// Who fell, and what no commit finds.

ghost use Rattle.fate_laws.specs.Falls.{FallenAreUncommitted, CommitsFindTheUnfallen, CommitsFindNoneFallen, CommittedNeverFell, MembersNeverFellAtHome};

/// Whose part on a shard was taken away by an abort, or left out by a restart, is not committed there, then or ever after.
pub fn fallen_are_uncommitted()
    ensures { FallenAreUncommitted }
{}

/// Where word of a commit comes to a part and is taken, the part never fell there.
pub fn commits_find_the_unfallen()
    ensures { CommitsFindTheUnfallen }
{}

/// It is none of those that fell, as the histories of one shard count them.
pub fn commits_find_none_fallen()
    ensures { CommitsFindNoneFallen }
{}

/// Whose COMMIT is left in a shard's log never fell there.
pub fn committed_never_fell()
    ensures { CommittedNeverFell }
{}

/// Whose COMMIT is left on any shard never fell at its home.
pub fn members_never_fell_at_home()
    ensures { MembersNeverFellAtHome }
{}
