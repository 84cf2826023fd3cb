// Worked examples.

ghost use Rattle.ended_laws.specs.Examples.{OneShardIsSpent, AnEndedCommitIsSpent, ALookTells, ALatePrepareTells};

/// A transaction of one shard is over once its COMMIT is durable, and nothing reads its request any more.
pub fn one_shard_is_spent()
    ensures { OneShardIsSpent }
{}

/// So is a commit with other shards once its END is written.
pub fn an_ended_commit_is_spent()
    ensures { AnEndedCommitIsSpent }
{}

/// A refused request is over, and its first look is still answered by its row.
pub fn a_look_tells()
    ensures { ALookTells }
{}

/// A part that voted that it only read is past, and a late Prepare of it is still answered by its row.
pub fn a_late_prepare_tells()
    ensures { ALatePrepareTells }
{}
