// Cuts of legal histories.

ghost use Rattle.journal_laws.specs.Cuts.{CutIsLegal, CrashesLeave, FrontsAreCuts, MomentsAreCuts, WholeWalkersServe, LegalFrontsAreCuts};

/// A cut of a legal history is legal, with any logs that its shards may leave; the history goes on from it.
pub fn cut_is_legal()
    ensures { CutIsLegal }
{}

/// What a crash leaves at a cut, by a choice for each shard, are such logs.
pub fn crashes_leave()
    ensures { CrashesLeave }
{}

/// The first entries of a legal history are a cut of it.
pub fn fronts_are_cuts()
    ensures { FrontsAreCuts }
{}

/// So are all entries with a stamp below a given one.
pub fn moments_are_cuts()
    ensures { MomentsAreCuts }
{}

/// Where all of each walker's entries are a front, those of its session are.
pub fn whole_walkers_serve()
    ensures { WholeWalkersServe }
{}

/// A legal history whose journals and sessions are fronts of another's is a cut of it.
pub fn legal_fronts_are_cuts()
    ensures { LegalFrontsAreCuts }
{}
