// What the words may be.

use crate::counts::RecordCounts;
use clv_base::splits::Splits;

/// A command.
#[derive(Drop)]
pub enum Command {
    /// Makes the empty logs of the shards that these splits part.
    Make {
        splits: Splits,
    },
    /// Runs a script, each transaction in at most so many tries.
    Run {
        tries: u64,
    },
    /// Shows all pairs.
    Show,
    /// Runs a workload.
    Load {
        seed: u64,
        sessions: u64,
        accounts: u64,
        transfers: u64,
    },
    /// Lets so many sessions live.
    Serve {
        sessions: u64,
    },
    /// Judges the report of a run.
    Audit,
    /// Shows what a standby shows that was fed so many of each shard's records.
    Standby {
        counts: RecordCounts,
    },
}

/// Why words are no command.
#[derive(Clone, Copy, PartialEq, Eq)]
pub enum WordsError {
    /// They aren't one.
    Usage,
    /// There was no memory.
    Memory,
}
