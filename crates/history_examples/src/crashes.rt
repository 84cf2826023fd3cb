// Shards that stop, or whose flush fails, and restart.

ghost use Rattle.history_examples.specs.Crashes.{Stopped_lost, Stopped_found, Flush_failed, Ghost_again};

/// A writer's COMMIT is in flight, a reader has violated it, and the shard stops. It restarts without the batch: both are aborted by the
/// restart, and the key is absent.
pub fn stopped_and_lost()
    ensures { Stopped_lost }
{}

/// The same, but the restart finds the batch: the writer is acknowledged, and the reader, of which no record stands, is aborted alike.
pub fn stopped_and_found()
    ensures { Stopped_found }
{}

/// A flush fails: an operation on the shard answers Down. After the restart the transaction's next operation names the old epoch and dies.
pub fn stale_epoch_dies()
    ensures { Flush_failed }
{}

/// A key is deleted, and a second transaction puts it again over the closed delete. The shard stops and both are lost: the value before the
/// delete is back.
pub fn ghost_is_written_again()
    ensures { Ghost_again }
{}
