// A shard is restarted, once in vain, with a prepared transaction and a loser.

ghost use Rattle.history_examples.specs.Restarted.{RestartedIsLegal, RestartedHasMember, DownIsLegal, DownMayBeOpened};

/// The shard voted yes and stops; a restart fails once its RESTART is written, and the next one has the epoch after that; the history is legal.
pub fn restarted_is_legal()
    ensures { RestartedIsLegal }
{}

/// The prepared transaction is in doubt there, its part is restored, and it is a member; the loser is gone; what a crash leaves may be opened.
pub fn restarted_has_member()
    ensures { RestartedHasMember }
{}

/// The history that ends while the shard is down, behind a restart that failed after the loser's ABORT, is legal.
pub fn down_is_legal()
    ensures { DownIsLegal }
{}

/// Its logs may be opened, with the transaction in doubt.
pub fn down_may_be_opened()
    ensures { DownMayBeOpened }
{}
