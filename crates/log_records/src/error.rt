// Why a record could not be written or read.

ghost use Rattle.std.specs.Prelude.{◌≡◌};
ghost use Rattle.log_records.specs.declared.error.DecodeError.TheVariants.{Memory};

use std::alloc::{AllocError, AllocFailed};

/// Want of memory.
pub type Memory = AllocError;

/// Why no record was read.
#[derive(Clone, Copy, PartialEq, Eq)]
pub enum DecodeError {
    /// No record's spelling stands at the front.
    Bad,
    /// Want of memory.
    Memory,
}

impl From<AllocError> for DecodeError {
    ghost from_gives = { λ _ e. e ≡ Memory };

    fn from(_: AllocError) -> DecodeError {
        DecodeError::Memory
    }
}

impl<T: Drop> From<AllocFailed<T>> for DecodeError {
    ghost from_gives = { λ _ e. e ≡ Memory };

    fn from(_: AllocFailed<T>) -> DecodeError {
        DecodeError::Memory
    }
}
