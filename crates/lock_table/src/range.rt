//! A mode on a range: on a record's key and on the gap above it.
ghost use Rattle.std.specs.Prelude.{◌≡◌};
ghost use Rattle.clv_base.specs.Modes.{compatible as fits, join as greater_of_each, writes as is_written};

use crate::part::{are_compatible, greater, is_violated};
use clv_base::modes::Mode;

/// Whether a mode may be granted beside one that another transaction holds on the same anchor: where both parts may.
pub fn compatible(asked: Mode, held: Mode) -> bool
    ensures { result ≡ fits asked held }
{
    are_compatible(asked.key, held.key) && are_compatible(asked.gap, held.gap)
}

/// What a transaction holds of an anchor that is granted both modes: the greater of each part.
pub fn join(a: Mode, b: Mode) -> Mode
    ensures { result ≡ greater_of_each a b }
{
    Mode {
        key: greater(a.key, b.key),
        gap: greater(a.gap, b.gap),
    }
}

/// Whether what is held writes what is asked for: some part of `held` is X and conflicts with that part of `asked`.
pub fn writes(asked: Mode, held: Mode) -> bool
    ensures { result ≡ is_written asked held }
{
    is_violated(asked.key, held.key) || is_violated(asked.gap, held.gap)
}
