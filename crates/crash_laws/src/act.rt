// The members' operations and goings back, in the order of the history.

ghost use Rattle.headline_laws.specs.Found.{MembersReplay};
ghost use Rattle.crash_laws.specs.Acts.{AnswersAreOfEarlier, MeetingsFollowPlaces, ActsReplay, MembersHaveTheirActs};

/// Each answer of a member is that of the map that the logs found stand for with those of the members' earlier writes of the history that nobody had
/// gone back over by then; with all that hold at the end it is the map that the logs left stand for.
pub fn answers_are_of_earlier()
    ensures { AnswersAreOfEarlier }
{}

/// Where two operations of members meet at a key that one of them writes, the earlier in the history is of the same member or of one at an earlier
/// place; and between an operation and the going back that takes it away nobody else meets it.
pub fn meetings_follow_places()
    ensures { MeetingsFollowPlaces }
{}

/// Acts on a shard that keep these rules replay transaction by transaction, with these answers and to this map.
pub fn acts_replay()
    ensures { ActsReplay }
{}

/// Each member has its acts among the members' in its order, and they are whole; and no member stands twice.
pub fn members_have_their_acts()
    ensures { MembersHaveTheirActs }
{}

/// So the members replay: as their acts do on each shard.
pub fn members_replay_by_acts()
    ensures { MembersReplay }
{}
