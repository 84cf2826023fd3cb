// Why a piece is refused.

ghost use Rattle.std.specs.Prelude.{◌≡◌};
ghost use Rattle.record_stream.specs.declared.error.StreamError.TheVariants.{Memory as no_memory};

use std::alloc::{AllocError, AllocFailed};

/// Want of memory.
pub type Memory = AllocError;

/// Why a piece is refused.
#[derive(Clone, Copy, PartialEq, Eq)]
pub enum StreamError {
    /// The bytes so far are not the beginning of records' spellings.
    Bad,
    /// Want of memory.
    Memory,
}

impl From<AllocError> for StreamError {
    ghost from_gives = { λ _ e. e ≡ no_memory };

    fn from(_: AllocError) -> StreamError {
        StreamError::Memory
    }
}

impl<T: Drop> From<AllocFailed<T>> for StreamError {
    ghost from_gives = { λ _ e. e ≡ no_memory };

    fn from(_: AllocFailed<T>) -> StreamError {
        StreamError::Memory
    }
}
