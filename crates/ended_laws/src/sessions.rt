// What no session makes any more of a transaction.

ghost use Rattle.ended_laws.specs.Sessions.{NoWorkFollowsARequest, OnlyDropsFollowTheEnd, NothingFollowsSuccess, NothingFollowsALaterOne, TheDeadAskNothing};

/// Behind its request there is no operation and no further request of a transaction.
pub fn no_work_follows_a_request()
    ensures { NoWorkFollowsARequest }
{}

/// Behind a death, a drop, or a look that told its end there are only drops of it.
pub fn only_drops_follow_the_end()
    ensures { OnlyDropsFollowTheEnd }
{}

/// Behind the word of success there are not even drops.
pub fn nothing_follows_success()
    ensures { NothingFollowsSuccess }
{}

/// Nor behind any entry of a later one of its session.
pub fn nothing_follows_a_later_one()
    ensures { NothingFollowsALaterOne }
{}

/// No request is ever taken of a transaction of which an operation or a request died.
pub fn the_dead_ask_nothing()
    ensures { TheDeadAskNothing }
{}
