// The states of the examples are sound.

ghost use Rattle.history_examples.specs.Soundness.{Sound_small, Sound_wide, Sound_ends};

/// After every step of the small examples each table is in order, each lock is that of a part, the records are what the log leaves, nothing is due.
pub fn small_examples_are_sound()
    ensures { Sound_small }
{}

/// So they are after every step over three shards.
pub fn wide_examples_are_sound()
    ensures { Sound_wide }
{}

/// And at the ends of the longer examples.
pub fn ends_of_examples_are_sound()
    ensures { Sound_ends }
{}
