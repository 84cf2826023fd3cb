//! One part of a mode, of the key or of the gap.
ghost use Rattle.std.specs.Prelude.{◌≡◌};
ghost use Rattle.clv_base.specs.Modes.{part_compatible, part_join, part_writes};

use clv_base::modes::Part;

/// Whether a part may be asked for beside one that another holds: N with all, S with S, I with I.
pub(crate) fn are_compatible(asked: Part, held: Part) -> bool
    ensures { result ≡ part_compatible asked held }
{
    match (asked, held) {
        (Part::N, _) | (_, Part::N) | (Part::S, Part::S) | (Part::I, Part::I) => true,
        (Part::X, _) | (_, Part::X) | (Part::S, Part::I) | (Part::I, Part::S) => false,
    }
}

/// The greater of two parts, N below S and I, these below X; S and I join to X.
pub(crate) fn greater(a: Part, b: Part) -> Part
    ensures { result ≡ part_join a b }
{
    match (a, b) {
        (Part::X, _) | (_, Part::X) | (Part::S, Part::I) | (Part::I, Part::S) => Part::X,
        (Part::S, _) | (_, Part::S) => Part::S,
        (Part::I, _) | (_, Part::I) => Part::I,
        (Part::N, Part::N) => Part::N,
    }
}

/// Whether the held part is a write that doesn't fit what is asked.
pub(crate) fn is_violated(asked: Part, held: Part) -> bool
    ensures { result ≡ part_writes asked held }
{
    match held {
        Part::X | Part::I => !are_compatible(asked, held),
        Part::N | Part::S => false,
    }
}
