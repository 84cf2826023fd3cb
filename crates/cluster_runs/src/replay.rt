// Laws of runs that went through.

ghost use Rattle.cluster_runs.specs.Replays.{MembersAreAcknowledged, NothingIsReplayed, RequestsAreTold, RunsReplay};

/// Each transaction of a session that went through was told of its acknowledgement or of its abort, once it had made its request.
pub fn requests_are_told()
    ensures { RequestsAreTold }
{}

/// What the logs left stand for is the map after the acknowledged transactions.
pub fn runs_replay()
    ensures { RunsReplay }
{}

/// The members are the acknowledged transactions.
pub fn members_are_acknowledged()
    ensures { MembersAreAcknowledged }
{}

/// Where there was no session, no transaction is acknowledged: the map is what the logs found stand for.
pub fn nothing_is_replayed()
    ensures { NothingIsReplayed }
{}
