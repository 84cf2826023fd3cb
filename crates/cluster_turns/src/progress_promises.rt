// What a walker's entries tell of its session.
ghost use Rattle.cluster_turns.specs.States.{SessionsHaveStates, StatesGoOn, StatesTellMayMake, OthersLeaveStates, StatesBearWalkers, OpsGoOn, TouchedAreLast, TouchedAreShards, WrittenAreTouched, HomesAreShards};

/// A walker's entries are a session's exactly where they lead to a state.
pub fn sessions_have_states()
    ensures { SessionsHaveStates }
{}

/// The state goes on by the walker's next entry.
pub fn states_go_on()
    ensures { StatesGoOn }
{}

/// The walker may make an event exactly where the state goes on by it.
pub fn states_tell_may_make()
    ensures { StatesTellMayMake }
{}

/// Events that no session makes leave the state as it is.
pub fn others_leave_states()
    ensures { OthersLeaveStates }
{}

/// Each transaction bears the run and the walker's number.
pub fn states_bear_walkers()
    ensures { StatesBearWalkers }
{}

/// An operation goes on the transaction that stands, or begins the next one.
pub fn ops_go_on()
    ensures { OpsGoOn }
{}

/// What was touched, or isn't going on by operations any more, is the last transaction.
pub fn touched_are_last()
    ensures { TouchedAreLast }
{}

/// Each touched shard is one that there is.
pub fn touched_are_shards()
    ensures { TouchedAreShards }
{}

/// Each write that stands is on a touched shard.
pub fn written_are_touched()
    ensures { WrittenAreTouched }
{}

/// The home of a request that stands is a shard that there is.
pub fn homes_are_shards()
    ensures { HomesAreShards }
{}
