// Births through a walker's turns.
ghost use Rattle.cluster_turns.specs.Laws.{FreeStays, InformedStay, InformedLater, NewAreInformed, NewIsFree};
ghost use Rattle.cluster_turns.specs.Epochs.{ReachedStays, PastStays, AnsweredIsReached, DownIsPast, PastRollsNowhere};
ghost use Rattle.cluster_turns.specs.Unborn.{UnbornStays, UnlessStays, AnsweredIsInEpoch, DiesAtRequest, DiesGoingBack, EndsUnbear, NewIsUnborn, UnbornIsFree, UnbornUnlessNone, UnbornUnlessAny};

/// A birth stays free while the walker's own turns leave it to its transaction.
pub fn free_stays<T>()
    ensures { FreeStays T }
{}

/// What passes know stays so.
pub fn informed_stay<T>()
    ensures { InformedStay T }
{}

/// With a later clock too.
pub fn informed_later<T>()
    ensures { InformedLater T }
{}

/// New passes know it.
pub fn new_are_informed<T>()
    ensures { NewAreInformed T }
{}

/// A birth past the clock is free.
pub fn new_is_free<T>()
    ensures { NewIsFree T }
{}

/// A birth that no transaction has active on a shard stays so while the walker's own turns there make no operation of it.
pub fn unborn_stays<T>()
    ensures { UnbornStays T }
{}

/// It is so where its one transaction died, made its request or was dropped.
pub fn ends_unbear<T>()
    ensures { EndsUnbear T }
{}

/// A birth past the clock is so everywhere.
pub fn new_is_unborn<T>()
    ensures { NewIsUnborn T }
{}

/// Then it is free for each transaction.
pub fn unborn_is_free<T>()
    ensures { UnbornIsFree T }
{}

/// What is so but for the part of one epoch stays so too.
pub fn unless_stays<T>()
    ensures { UnlessStays T }
{}

/// Where an operation was answered its shard is in that epoch.
pub fn answered_is_in_epoch<T>()
    ensures { AnsweredIsInEpoch T }
{}

/// A request that died leaves no active part at its home.
pub fn dies_at_request<T>()
    ensures { DiesAtRequest T }
{}

/// Nor does a going back that died leave one on its shard.
pub fn dies_going_back<T>()
    ensures { DiesGoingBack T }
{}

/// No epoch, no part.
pub fn unborn_unless_none<T>()
    ensures { UnbornUnlessNone T }
{}

/// What has no active part at all has none in any epoch.
pub fn unborn_unless_any<T>()
    ensures { UnbornUnlessAny T }
{}

/// A shard's epoch never falls.
pub fn reached_stays<T>()
    ensures { ReachedStays T }
{}

/// What it is past it stays past.
pub fn past_stays<T>()
    ensures { PastStays T }
{}

/// Where an operation was answered its shard has reached that epoch.
pub fn answered_is_reached<T>()
    ensures { AnsweredIsReached T }
{}

/// A shard that is down is past each epoch that it reached.
pub fn down_is_past<T>()
    ensures { DownIsPast T }
{}

/// Nothing goes back in an epoch that is past.
pub fn past_rolls_nowhere<T>()
    ensures { PastRollsNowhere T }
{}
