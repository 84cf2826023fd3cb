// What is aborted, and stays so.

ghost use Rattle.fate_laws.specs.Aborts.{DoomedAreUncommitted, AbortedAreCommittedNowhere};

/// Whose part was taken away by an abort has no COMMIT on that shard.
pub fn doomed_are_uncommitted()
    ensures { DoomedAreUncommitted }
{}

/// Who is told of an abort is committed nowhere.
pub fn aborted_are_committed_nowhere()
    ensures { AbortedAreCommittedNowhere }
{}
