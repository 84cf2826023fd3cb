// Checkpoints of logs in order.

ghost use Rattle.checkpoint_laws.specs.Laws.{CheckpointsOfLogsInOrder, LogsInOrderStayAlike, CheckpointsAreInOrder, CheckpointsGoOnInOrder, CheckpointsLeaveTheState, CheckpointsOpenAlike, ExchangedStandAlike, ExchangedMayBeOpened};

/// The checkpoint of a log in order has itself as checkpoint; the same are in doubt in both, a restart writes the same records behind both, and both
/// stand for the same map.
pub fn checkpoints_of_logs_in_order()
    ensures { CheckpointsOfLogsInOrder }
{}

/// A log in order and its checkpoint stay alike while records are added to both, as long as the log stays in order.
pub fn logs_in_order_stay_alike()
    ensures { LogsInOrderStayAlike }
{}

/// The checkpoint of a log in order is in order.
pub fn checkpoints_are_in_order()
    ensures { CheckpointsAreInOrder }
{}

/// Records that come in order behind a log in order come in order behind its checkpoint.
pub fn checkpoints_go_on_in_order()
    ensures { CheckpointsGoOnInOrder }
{}

/// Behind a log in order and behind its checkpoint the same records leave the same state, but for the log itself.
pub fn checkpoints_leave_the_state()
    ensures { CheckpointsLeaveTheState }
{}

/// A shard that is opened by a later run from the checkpoint of a log in order is the one that is opened from the log, but for the log itself.
pub fn checkpoints_open_alike()
    ensures { CheckpointsOpenAlike }
{}

/// The logs of all shards, where they may be opened, stand for the same map when some of them are exchanged for their checkpoints.
pub fn exchanged_stand_alike()
    ensures { ExchangedStandAlike }
{}

/// Logs that may be opened may be so when some of them are exchanged for their checkpoints: each is in order, names what it may name, and they agree on
/// who is committed.
pub fn exchanged_may_be_opened()
    ensures { ExchangedMayBeOpened }
{}
