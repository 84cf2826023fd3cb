// Why the disks weren't opened.

ghost use Rattle.std.specs.Prelude.{◌≡◌};
ghost use Rattle.cluster_opening.specs.declared.error.OpenError.TheVariants.{Memory as no_memory};

use clv_base::names::TxId;
use std::alloc::AllocError;

/// Where the first fault of a log stands.
#[derive(Clone, Copy, PartialEq, Eq)]
pub enum At {
    /// The field at this place of the disk is not as it should be.
    Byte(u64),
    /// The record with this number, from 0, breaks the rules of order.
    Record(u64),
}

/// Why the disks of a house weren't opened as the logs of all shards.
#[derive(Clone, Copy, PartialEq, Eq)]
pub enum OpenError {
    /// The shard's disk failed.
    Failed { shard: u32 },
    /// The shard's disk has no log, or one that is out of order. All shards below have logs in order.
    NotLog { shard: u32, at: At },
    /// The logs disagree on this transaction, the least such.
    Apart { tx: TxId },
    /// The next run would be this number, and runs end below it.
    Worn { at: u64 },
    Memory,
}

impl From<AllocError> for OpenError {
    ghost from_gives = { λ _ e. e ≡ no_memory };

    fn from(_: AllocError) -> Self {
        OpenError::Memory
    }
}
