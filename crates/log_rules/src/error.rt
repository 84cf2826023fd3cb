// Why a log isn't taken.

ghost use Rattle.std.specs.Prelude.{◌≡◌};
ghost use Rattle.log_rules.specs.declared.error.OrderError.TheVariants.{Memory as no_memory};

use std::alloc::AllocError;

/// Why a log isn't taken.
#[derive(Clone, Copy, PartialEq, Eq)]
pub enum OrderError {
    /// The record at this LSN breaks its rule, and none before it does.
    Breaks(u64),
    /// There was no memory.
    Memory,
}

impl From<AllocError> for OrderError {
    ghost from_gives = { λ _ e. e ≡ no_memory };

    fn from(_: AllocError) -> Self {
        OrderError::Memory
    }
}
