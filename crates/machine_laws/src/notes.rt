// What a shard's lock takes for an entry.
use clv_base::events::Entry;
use clv_base::logs::LogRecord;
use clv_base::splits::Splits;
use log_buffer::LogBuffer;
use std::collections::LinkedList;
use std::snapshot::Snapshot;

/// What never changes of a shard: its number, the run, and, for contracts alone, the log that opening found, and the splits of its header.
#[derive(Drop)]
pub struct Origin {
    pub shard: u32,
    pub run: u32,
    pub found: Snapshot<Vec<LogRecord>>,
    pub splits: Snapshot<Splits>,
}

/// What is noted of a shard, one after another, for contracts alone: no value of it is made.
#[derive(Drop)]
pub enum Note {
    /// The entry, of a restart with the log that it left.
    Made {
        entry: Entry,
        log: LinkedList<LogRecord>,
    },
    /// The walker took the disk.
    Fetched {
        walker: u32,
    },
}

/// What is kept beside the journal, so that both tell the notes. `at` is the number of entries before it.
#[derive(Drop)]
pub enum Mark {
    /// The next entry is a restart's, and this is the log that it left.
    Left {
        at: usize,
        log: Snapshot<LogBuffer<LogRecord>>,
    },
    /// The walker took the disk.
    Fetched {
        at: usize,
        walker: u32,
    },
}
