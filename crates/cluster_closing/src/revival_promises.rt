// A walker after a fetch, a restart and a look. `T` is what lies in the locks, `D` what is fetched.
ghost use Rattle.cluster_closing.specs.ReviveLaws.{FetchesLand, RestartsLand, SettledLooksLand, FetchesInform, RestartsInform, SettledLooksInform, RestartsEndHolding};

/// A fetch leaves a walker without a gate.
pub fn fetches_land<T, D>()
    ensures { FetchesLand T D }
{}

/// So does a restart, whatever comes of it.
pub fn restarts_land<T, D>()
    ensures { RestartsLand T D }
{}

/// And a look at whether a shard is settled.
pub fn settled_looks_land<T>()
    ensures { SettledLooksLand T }
{}

/// What passes know of births stays so through a fetch.
pub fn fetches_inform<T, D>()
    ensures { FetchesInform T D }
{}

/// And through a restart.
pub fn restarts_inform<T, D>()
    ensures { RestartsInform T D }
{}

/// And through a look at whether a shard is settled.
pub fn settled_looks_inform<T>()
    ensures { SettledLooksInform T }
{}

/// After a restart the walker that had that shard's disk alone has none, and after one that was refused it has no other.
pub fn restarts_end_holding<T, D>()
    ensures { RestartsEndHolding T D }
{}
