// The law.

ghost use Rattle.due_step.specs.Covering.{CarriedCovers};

/// After what was found is carried out, those that it touched are candidates besides.
pub fn carried_covers()
    ensures { CarriedCovers }
{}
