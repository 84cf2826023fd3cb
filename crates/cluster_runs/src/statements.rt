// Laws of the promises.

ghost use Rattle.cluster_runs.specs.PromiseLaws.{UndoStands};

/// What an opening may have added to a log leaves what it stands for.
pub fn undo_stands()
    ensures { UndoStands }
{}
