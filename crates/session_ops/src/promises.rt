// Gates through a walker's turns. `T` is what lies in the locks.
ghost use Rattle.session_ops.specs.EndLaws.{TurnsLand, LooksLand};

/// Whatever turns a call takes, a walker that had the gate of no shard has none after them.
pub fn turns_land<T>()
    ensures { TurnsLand T }
{}

/// Nor has it one after a look at a horizon.
pub fn looks_land<T>()
    ensures { LooksLand T }
{}
