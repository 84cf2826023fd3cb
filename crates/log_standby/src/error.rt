// Why a piece is refused.

ghost use Rattle.std.specs.Prelude.{◌≡◌};
ghost use Rattle.log_standby.specs.declared.error.FeedError.TheVariants.{Memory as no_memory, Bad as not_spelled};
ghost use Rattle.record_stream.specs.declared.error.StreamError.TheVariants as stream_errors;

use record_stream::StreamError;
use std::alloc::AllocError;

/// Why a piece is refused.
#[derive(Clone, Copy, PartialEq, Eq)]
pub enum FeedError {
    /// The bytes of the shard so far, with this piece, are not the beginning of records' spellings.
    Bad,
    /// The record at this place of the shard's log breaks its rule, and none before it does.
    Order { place: u64 },
    /// There was no memory.
    Memory,
}

impl From<AllocError> for FeedError {
    ghost from_gives = { λ _ e. e ≡ no_memory };

    fn from(_: AllocError) -> Self {
        FeedError::Memory
    }
}
