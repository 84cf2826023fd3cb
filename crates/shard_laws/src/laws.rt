// Laws over all histories of one shard.

ghost use Rattle.shard_laws.specs.OneShard.{AnswersAndMap, Recoverable, QuietIsSettled, ValuesAreFolds, ChosenReplay, LaterReplay, ChosenAct, ChosenStandBefore, OrderIsKept};

/// In each history of one shard the members of each cut of the log at or above what is durable replay, in the order of their requests, from
/// the map that the log found stands for: to the answers that they were given, and to the map that the cut stands for; where each of them goes
/// back only to what it has not gone back over.
pub fn answers_and_map()
    ensures { AnswersAndMap }
{}

/// Whose writes a member violated is a member too, at an earlier place.
pub fn recoverable()
    ensures { Recoverable }
{}

/// Where nothing is buffered or in flight, and each part is gone or committed, the live records are what the log stands for.
pub fn quiet_is_settled()
    ensures { QuietIsSettled }
{}

/// At every moment, whatever was undone or gone back over, a key's value is the fold of those of its UPDATEs and ADDs that stand in the log.
pub fn values_are_folds()
    ensures { ValuesAreFolds }
{}

/// Where transactions are chosen by the COMMITs of other shards, those that are in doubt here among them, the chosen ones replay to their
/// answers and to the map of what stands in the cut of the writes of those that are committed or in doubt there.
pub fn chosen_replay()
    ensures { ChosenReplay }
{}

/// The chosen ones that asked after the opening replay alone, from the map of what the log found commits and of those in doubt there that
/// are chosen.
pub fn later_replay()
    ensures { LaterReplay }
{}

/// In the order in which they were done, the chosen ones' operations after the opening give their answers, each by what had not been gone back
/// over by then, and those that hold at the end come to their map. Of two that meet at a key that one writes, the earlier is of the same
/// transaction or of one that asked earlier; and nobody else met what a transaction then went back over.
pub fn chosen_act()
    ensures { ChosenAct }
{}

/// Whose writes a chosen one violated is chosen too, at an earlier place.
pub fn chosen_stand_before()
    ensures { ChosenStandBefore }
{}

/// The log of a shard keeps the order rules at every moment, through messages, flushes, crashes and restarts that fail in between.
pub fn order_is_kept()
    ensures { OrderIsKept }
{}
