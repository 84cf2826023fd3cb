// Cuts of the refused commit.

ghost use Rattle.history_examples.specs.Lagging.{LaggingIsACut, LaggingIsNoMoment, LaggingWalkersAreNoFront, UnsentIsNeverLegal};

/// A shard lags behind the other: this is a cut.
pub fn lagging_is_a_cut()
    ensures { LaggingIsACut }
{}

/// It has an entry and not an earlier one of the other shard, so it is no moment.
pub fn lagging_is_no_moment()
    ensures { LaggingIsNoMoment }
{}

/// It has a later entry of the carrier and not the earlier ones: only sessions need to be fronts.
pub fn lagging_walkers_are_no_front()
    ensures { LaggingWalkersAreNoFront }
{}

/// Without a message's sending, what a shard and all sessions had done is no legal history, whatever the logs.
pub fn unsent_is_never_legal()
    ensures { UnsentIsNeverLegal }
{}
