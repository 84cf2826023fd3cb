// Streams of a legal history.

ghost use Rattle.standby_laws.specs.Serial.{ShownIsSerial, WhatWasFoundCame};
ghost use Rattle.standby_laws.specs.Streams.{MembersStand, MembersHavePredecessors, MembersStay, SettledIsShown};

/// A member is of the serial history, whatever a crash keeps, or was committed in the logs at opening.
pub fn members_stand()
    ensures { MembersStand }
{}

/// Each predecessor that a member got on a shard where it has a COMMIT is a member: its COMMIT comes earlier on that stream.
pub fn members_have_predecessors()
    ensures { MembersHavePredecessors }
{}

/// Feeding more takes no member away.
pub fn members_stay()
    ensures { MembersStay }
{}

/// All records of a settled history give the map that its logs stand for.
pub fn settled_is_shown()
    ensures { SettledIsShown }
{}

/// Where the streams begin with the logs found, and none of these has in doubt what another one commits, whoever was committed in one of them is a member.
pub fn what_was_found_came()
    ensures { WhatWasFoundCame }
{}

/// Where the streams have all that was there at opening, what is shown is the map of a serial run of what the members did on the shards where they wrote,
/// in the order of the history, from the map that the logs found stand for; and each operation of it gives the answer that it was told.
pub fn shown_is_serial()
    ensures { ShownIsSerial }
{}
