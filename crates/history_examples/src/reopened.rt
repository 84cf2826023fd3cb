// What the crash left is opened, with the transaction in doubt on one shard.

ghost use Rattle.history_examples.specs.Reopened.{ReopenedIsLegal, ReopenedHasMember, ReopenedIsSettled};

/// Another transaction reads the write that is in doubt; the home is reminded and tells the commit again; the history is legal.
pub fn reopened_is_legal()
    ensures { ReopenedIsLegal }
{}

/// The reader is the one member, and the map stays; its predecessor was committed at opening, at its home.
pub fn reopened_has_member()
    ensures { ReopenedHasMember }
{}

/// Then nothing is left to do, and the live records are that map.
pub fn reopened_is_settled()
    ensures { ReopenedIsSettled }
{}
