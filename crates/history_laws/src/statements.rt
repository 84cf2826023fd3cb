// Homes, parts and keys of a history's logs.

ghost use Rattle.history_laws.specs.Passing.{LogsLeftPass};

/// In what a crash leaves of a legal history from logs that may be opened, each home and each part is a shard that there is, and each key lies
/// in the span of its log's shard.
pub fn logs_left_pass()
    ensures { LogsLeftPass }
{}
