// What a session of a script is of, from a new walker on.
ghost use Rattle.session_api.specs.Laws.{NewWalkersAreSessions, NewWalkersRest, NewWalkersKeepNone, SessionsRest, ScriptsFollow};

/// A new walker, but for walker 0, is a session's: it is ready, has the gate of no shard, never took a disk, and has none.
pub fn new_walkers_are_sessions<M, S, G>()
    ensures { NewWalkersAreSessions M S G }
{}

/// A new walker is at rest.
pub fn new_walkers_rest<M, S, G>()
    ensures { NewWalkersRest M S G }
{}

/// It has made nothing so far.
pub fn new_walkers_keep_none<M, S, G>()
    ensures { NewWalkersKeepNone M S G }
{}

/// A session's walker is at rest between its calls, however its last transaction stands.
pub fn sessions_rest<M, S, G>()
    ensures { SessionsRest M S G }
{}

/// The entries of a session of a new walker that only sessions make are those of its script's transactions, in order, each in its tries: births lie past the
/// walker's clock, and the tries have the serials from 1 on.
pub fn scripts_follow<M, S, G>()
    ensures { ScriptsFollow M S G }
{}
