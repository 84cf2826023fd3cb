// A transaction over two shards, and a crash between its two COMMITs.

ghost use Rattle.history_examples.specs.Committed.{WideIsLegal, WideHasMember, WideIsLeftInDoubt};

/// A transaction writes on two shards; the other shard votes yes, the home commits and tells it of success; the history is legal.
pub fn wide_is_legal()
    ensures { WideIsLegal }
{}

/// It is a member with both its writes, which replay to the map that the logs left stand for.
pub fn wide_has_member()
    ensures { WideHasMember }
{}

/// The other shard's COMMIT wasn't durable: the transaction is in doubt there in what is left, and the logs left may be opened.
pub fn wide_is_left_in_doubt()
    ensures { WideIsLeftInDoubt }
{}
