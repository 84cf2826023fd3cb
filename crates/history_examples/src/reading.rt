// A transaction reads on two shards what another one wrote there.

ghost use Rattle.history_examples.specs.Reading.{ReadingIsLegal, ReadingHasMembers, ReaderFollowsWriter};

/// The other shard votes read once the writer's COMMIT is durable there, the home acknowledges, and the writer's session goes on; the history is legal.
pub fn reading_is_legal()
    ensures { ReadingIsLegal }
{}

/// The writer, the reader and the session's second transaction are the members, in this order, and they replay to the map that the logs stand for.
pub fn reading_has_members()
    ensures { ReadingHasMembers }
{}

/// The writer is the reader's predecessor on both shards; all are acknowledged, and the reader has no COMMIT.
pub fn reader_follows_writer()
    ensures { ReaderFollowsWriter }
{}
