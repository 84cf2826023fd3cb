// Worlds that are run by a list of steps.
ghost use Rattle.crash_laws.specs.Laws.{WorldsAreSteady};

/// A world that is run from empty logs by any list of steps keeps the rules.
pub fn worlds_are_steady()
    ensures { WorldsAreSteady }
{}
