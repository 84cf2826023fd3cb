// What transactions do.

use clv_base::ops::Op;

/// An act of a transaction, with its number.
#[derive(Drop)]
pub enum Act {
    /// An operation.
    Operates { number: u64, op: Op },
    /// It goes back to where it was after its operations numbered up to `upto`.
    GoesBack { number: u64, upto: u64 },
}

impl Act {
    ghost use Rattle.std.specs.Prelude.{◌≡◌};
    ghost use Rattle.history_replay.specs.Acting.{is_back, number_of};

    /// Whether it goes back.
    pub fn goes_back(&self) -> bool
        ensures { result ≡ is_back self.now }
    {
        match self {
            Act::Operates { .. } => false,
            Act::GoesBack { .. } => true,
        }
    }

    /// Its number.
    pub fn number(&self) -> u64
        ensures { result ≡ number_of self.now }
    {
        match self {
            Act::Operates { number, .. } | Act::GoesBack { number, .. } => *number,
        }
    }
}
