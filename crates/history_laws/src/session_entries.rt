// What a session owes where it drops a transaction, and where it makes its request.

ghost use Rattle.history_laws.specs.Dropping.{DropsFollowAborts};
ghost use Rattle.history_laws.specs.Going.{RequestsGoWhole};
ghost use Rattle.history_laws.specs.Naming.{RequestsNameWhatAnswered};

/// A transaction whose request was taken is dropped only where a look found it aborted before.
pub fn drops_follow_aborts()
    ensures { DropsFollowAborts }
{}

/// Each shard that a request names, with its epoch, answered an operation of the transaction in that epoch before.
pub fn requests_name_what_answered()
    ensures { RequestsNameWhatAnswered }
{}

/// A transaction whose request was taken had numbered its acts in order, and each time that it went back, on all shards where it had written since.
pub fn requests_go_whole()
    ensures { RequestsGoWhole }
{}
