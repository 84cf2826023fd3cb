// How much room doing what is due may need.

ghost use Rattle.protocol_laws.specs.Rooms.{OnlyWorkIsDue, MessagesByWork, RecordsByWork};

/// Something is due only for transactions for which work is left.
pub fn only_work_is_due()
    ensures { OnlyWorkIsDue }
{}

/// Each thing that is done sends at most 15 messages, and leaves less work.
pub fn messages_by_work()
    ensures { MessagesByWork }
{}

/// Each thing that is done writes at most one record that isn't of an undo, and leaves less work.
pub fn records_by_work()
    ensures { RecordsByWork }
{}
