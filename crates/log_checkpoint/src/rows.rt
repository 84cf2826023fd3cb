// Worked examples.

ghost use Rattle.log_checkpoint.specs.Rows.{ARow, PartRow};

/// A log with one committed put, its checkpoint, what the file has of it, and the log that the file opens as with the RESTART of the next run.
pub fn a_checkpoint()
    ensures { ARow }
{}

/// Checkpoints with two in doubt and with one that was let go, in order; and logs that begin with a checkpoint and break a rule, with the place.
pub fn kept_records()
    ensures { PartRow }
{}
