// One transaction alone.

ghost use Rattle.history_examples.specs.Writers.{One_write, Own_writes, Ran};

/// One transaction puts a key and commits: its UPDATE and its COMMIT stand in the log, the flush makes them durable, a look acknowledges
/// it, and the log stands for the one pair.
pub fn one_write_commits()
    ensures { One_write }
{}

/// A transaction puts a key, overwrites it, reads it, deletes it and reads again: each answer is that of its own write before.
pub fn own_writes_are_seen()
    ensures { Own_writes }
{}

/// The same write as a list of core steps, with steps that are quiet or that no rule allows in between, comes to the same world.
pub fn core_steps_run()
    ensures { Ran }
{}
