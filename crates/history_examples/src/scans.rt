// Scans, and readers over several shards.

ghost use Rattle.history_examples.specs.Scans.{Scanned, Phantoms, Wide_reader};

/// One scan over three shards: a part scan on each, under one number, in rising order.
pub fn scans_go_by_shard()
    ensures { Scanned }
{}

/// A scan holds the gaps that it read: a younger insert dies of it. Tried again after the scan has closed it is granted. A scan over a closed
/// delete does not see the key, and is acknowledged only when the delete is durable.
pub fn scans_meet_no_phantom()
    ensures { Phantoms }
{}

/// A transaction reads on two shards what another wrote there: its vote and its acknowledgement wait for the writer's COMMITs.
pub fn wide_reader_waits()
    ensures { Wide_reader }
{}
