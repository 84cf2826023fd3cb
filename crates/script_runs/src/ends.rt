// How tries and sessions end.

use clv_base::causes::AbortCause;

/// What stops a session.
#[derive(Clone, Copy, PartialEq, Eq)]
pub enum StopCause {
    /// A shard was found down before the transaction's request, or between two of its tries.
    Down { shard: u32 },
    /// A shard was found down while the transaction's request stood.
    Unsettled { shard: u32 },
    /// An event, or the beginning of a try, needed a stamp past the last.
    Worn { at: u64 },
    /// Want of memory.
    Memory,
}

/// How a try of a transaction ended.
#[derive(Clone, Copy, PartialEq, Eq)]
pub enum TryEnd {
    /// It was told of its acknowledgement.
    Acknowledged,
    /// It had nothing to commit.
    Empty,
    /// The line `abort` ended it.
    Asked,
    /// It was aborted for this cause.
    Aborted(AbortCause),
    /// The session was stopped in it.
    Stopped(StopCause),
}
