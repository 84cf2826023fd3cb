// Who may begin.
ghost use Rattle.session_ops.specs.Beginnings.{NewWalkersAreReady};

/// A walker without a turn so far is ready for its first transaction.
pub fn new_walkers_are_ready<M, S, G>()
    ensures { NewWalkersAreReady M S G }
{}
