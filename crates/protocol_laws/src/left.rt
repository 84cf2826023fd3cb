// Room for what may still be done.

ghost use Rattle.protocol_laws.specs.Left.{LeftFalls, OnlyLeftIsDue, MessagesByLeft, RecordsByLeft};
ghost use Rattle.protocol_laws.specs.Open.{LeftByOpen};

/// Each thing that is done leaves less.
pub fn left_falls()
    ensures { LeftFalls }
{}

/// Something is due only where something is left.
pub fn only_left_is_due()
    ensures { OnlyLeftIsDue }
{}

/// Room for 15 messages for each is enough.
pub fn messages_by_left()
    ensures { MessagesByLeft }
{}

/// Room for one record for each is enough, beside that for undo.
pub fn records_by_left()
    ensures { RecordsByLeft }
{}

/// Where nothing is due no more is left than what is open may want.
pub fn left_by_open()
    ensures { LeftByOpen }
{}
