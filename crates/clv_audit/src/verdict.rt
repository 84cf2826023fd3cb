// What an audit answers.

/// What is said of a report, and of the logs after its run: the first of these that applies.
#[derive(Clone, Copy, PartialEq, Eq)]
pub enum Verdict {
    /// This transaction, counted from 1, has a serial that isn't above its session's earlier ones, or an answer that no serial run gives.
    Wrong { place: u64 },
    /// So many transactions are unsettled: nothing is said of the logs.
    Open { count: u64 },
    /// At this key, the least one, the logs stand for something else.
    WrongMap { key: u64 },
    /// So many transactions, all of them right, and the logs stand for the map that they lead to.
    Yes { count: u64 },
}

/// Why there is no verdict.
#[derive(Clone, Copy, PartialEq, Eq)]
pub enum AuditError {
    /// After this line, counted from 1, no report goes on; 0 where there are too many bytes.
    Text { line: u64 },
    /// There was no memory.
    Memory,
}
