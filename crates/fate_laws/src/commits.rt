// What a commit finds on the shards of its transaction.

ghost use Rattle.fate_laws.specs.Binding.{CommitsComeDue, CommitsHaveTheirParts};
ghost use Rattle.fate_laws.specs.Downwards.{CommitsGoDownwards};

/// Where word of a commit is taken before its COMMIT is in the log, the part wrote, and all its predecessors there are committed.
pub fn commits_come_due()
    ensures { CommitsComeDue }
{}

/// Where a COMMIT is left on any shard and a part on another shard is left prepared, that part is committed, or what its PREPARE lists is.
pub fn commits_have_their_parts()
    ensures { CommitsHaveTheirParts }
{}

/// Where a transaction is committed on a shard, the predecessors that its part still has there are.
pub fn commits_go_downwards()
    ensures { CommitsGoDownwards }
{}
