// What an event leaves behind.

ghost use Rattle.protocol_laws.specs.Growth.{LogOnlyGrows, EntriesKeepLogs};
ghost use Rattle.clv_base.specs.Settling.{EachLeavesLess, NothingIsLeft};
ghost use Rattle.protocol_laws.specs.Resting.{EventsEndAtRest, RestartsEndAtRest};

/// No event takes a record out of the log or changes one.
pub fn log_only_grows()
    ensures { LogOnlyGrows }
{}

/// Nor does an entry of any kind but a restart's, the end of a flush among them.
pub fn entries_keep_logs()
    ensures { EntriesKeepLogs }
{}

/// Each thing that is done of what is due leaves less to do.
pub fn each_step_leaves_less()
    ensures { EachLeavesLess }
{}

/// When all that is due is done, nothing is due.
pub fn nothing_is_left_due()
    ensures { NothingIsLeft }
{}

/// At the end of an event that leaves the shard up nothing is due, and each ghost's anchor bears a lock.
pub fn events_end_at_rest()
    ensures { EventsEndAtRest }
{}

/// Nor is anything due in the state that a restart makes of a log, whatever the log, and there too each ghost's anchor bears a lock.
pub fn restarts_end_at_rest()
    ensures { RestartsEndAtRest }
{}
