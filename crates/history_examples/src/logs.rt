// Keys and their shards, logs that break a rule, and restarts that fail.

ghost use Rattle.history_examples.specs.LogRows.{Spread, Logs_apart, Same_log, Misfits};

/// Splits 10 and 20: which shard keys belong to, the spans of the shards, and where lists do not rise.
pub fn keys_have_shards()
    ensures { Spread }
{}

/// A commit over two shards is apart where one of the logs is an empty one instead; an UPDATE whose value before is not the key's, and a record
/// before the first RESTART, are out of order.
pub fn logs_are_apart()
    ensures { Logs_apart }
{}

/// Wherever a restart fails, the next one comes to the same log.
pub fn failed_restarts_go_on()
    ensures { Same_log }
{}

/// Which logs a restart may have left, and which record of another is the first amiss.
pub fn misfits_are_found()
    ensures { Misfits }
{}
