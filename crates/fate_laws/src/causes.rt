// Causes of aborts.

ghost use Rattle.fate_laws.specs.Causes.{CausesStand};

/// In a legal history from logs that may be opened, each operation or request that died, and each look that found an abort, has the cause that
/// it was told: an older transaction in its way, the abort of another that took it along, a shard's no that the home took, or a restart of a
/// shard that had answered it. That it asked is never told.
pub fn causes_stand()
    ensures { CausesStand }
{}
