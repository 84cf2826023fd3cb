// Why logs weren't made.

/// Why the logs of all shards weren't made.
#[derive(Clone, Copy, PartialEq, Eq)]
pub enum MakeError {
    /// The shard's disk has so many bytes already, and all below are empty. No disk was written.
    Exists { shard: u32, len: u64 },
    /// The shard's disk failed. Some disks may have their logs.
    Failed { shard: u32 },
    Memory,
}
