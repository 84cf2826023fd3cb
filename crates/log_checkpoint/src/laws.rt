// What a checkpoint keeps.

ghost use Rattle.log_checkpoint.specs.Laws.{CheckpointsLeaveTheOpen, CheckpointsKeepTheMap, CheckpointsStandAlike, CheckpointsCheckOnce, CheckpointsRestartAlike, CheckpointsGoOn, CheckpointsStayAlike};

/// In the checkpoint of a log the writes of those stand that are not committed in the log, at the same places and in the same order.
pub fn checkpoints_leave_the_open()
    ensures { CheckpointsLeaveTheOpen }
{}

/// The map of those committed, and the last RESTART, are a log's and its checkpoint's; and they have as many places.
pub fn checkpoints_keep_the_map()
    ensures { CheckpointsKeepTheMap }
{}

/// A log and its checkpoint stand for the same map.
pub fn checkpoints_stand_alike()
    ensures { CheckpointsStandAlike }
{}

/// The checkpoint of a checkpoint is itself.
pub fn checkpoints_check_once()
    ensures { CheckpointsCheckOnce }
{}

/// A restart writes the same records behind a log and behind its checkpoint, and finds the same transactions in doubt.
pub fn checkpoints_restart_alike()
    ensures { CheckpointsRestartAlike }
{}

/// Behind a checkpoint as much stands of the same records, and the map of those committed is the same, as behind the log.
pub fn checkpoints_go_on()
    ensures { CheckpointsGoOn }
{}

/// A log and its checkpoint stay alike while the same records are added to both.
pub fn checkpoints_stay_alike()
    ensures { CheckpointsStayAlike }
{}
