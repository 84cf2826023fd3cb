// Why a shard isn't restarted.
use cluster_opening::At;

/// Why a shard wasn't restarted.
#[derive(Clone, Copy, PartialEq, Eq)]
pub enum RestartError {
    /// The disk failed.
    Failed,
    /// The disk's log is none that a restart of this shard goes on from, and this is the first place, or the first record, by which it isn't.
    NotLog { at: At },
    /// The restart's stamp would be `at` or more, and stamps end below it.
    Worn { at: u64 },
    Memory,
}
