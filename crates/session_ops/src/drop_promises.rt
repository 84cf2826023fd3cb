// Where drops leave no part of a transaction's birth.
ghost use Rattle.session_ops.specs.Unbearing.{DropsUnbear};

/// After drops of all its parts no shard has an active part of it, unless the clock is at its end.
pub fn drops_unbear<M, S, G>()
    ensures { DropsUnbear M S G }
{}
