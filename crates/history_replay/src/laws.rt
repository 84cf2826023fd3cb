// Laws.

ghost use Rattle.history_replay.specs.Laws.{OneShardsEntries, OneShardsJournal};

/// The entries of one shard are those of its journal, each with shard 0.
pub fn one_shard()
    ensures { OneShardsEntries }
{}

/// The journal of one shard is that of its entries.
pub fn one_journal()
    ensures { OneShardsJournal }
{}
