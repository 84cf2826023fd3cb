// What a session is asked, and what it answers.

use clv_base::causes::AbortCause;
use clv_base::ops::{Answer, Op};

/// A call of a session.
#[derive(Drop)]
pub enum Call {
    Begin,
    /// Begins another try of the last transaction, with its birth.
    Retry,
    Operate(Op),
    /// Keeps a savepoint of the transaction.
    Save,
    /// Goes back to the savepoint of this number.
    Back(u64),
    Commit,
    Abort,
}

/// What a line asks of the session that it names: a call, or nothing that can be done.
#[derive(Drop)]
pub enum Asked {
    Call(Call),
    Unknown,
    /// To put a text for which there was no memory.
    NoMemory,
}

/// Why nothing was done.
#[derive(Clone, Copy, PartialEq, Eq)]
pub enum Refusal {
    /// The line is no request.
    Unknown,
    /// It names no session.
    NoSession,
    /// A transaction is active.
    Active,
    /// None is active.
    NoTx,
    /// The last transaction didn't end by an abort.
    NoRetry,
    /// The savepoint doesn't stand.
    NoSavepoint,
    /// The session has ended.
    Ended,
    /// The line is too long.
    TooLong,
    /// There was no memory for the line's text.
    NoMemory,
}

/// What a session answers.
#[derive(Drop)]
pub enum Reply {
    /// A transaction is active, under this serial.
    Begun { serial: u64 },
    /// An operation was answered.
    Answered { op: Op, answer: Answer },
    /// A savepoint was kept, under this number.
    Saved { number: u64 },
    /// The transaction went back to the savepoint of this number.
    WentBack { number: u64 },
    /// The transaction is acknowledged.
    Committed { serial: u64 },
    /// It had no operation.
    Empty { serial: u64 },
    /// It was aborted.
    Aborted(AbortCause),
    /// A shard is down. The transaction was dropped.
    Down { shard: u32 },
    /// A shard is down, and the transaction's request stands. The session has ended.
    Unsettled { shard: u32 },
    /// Stamps were wanting. The session has ended.
    Worn { at: u64 },
    /// Memory was wanting. The session has ended.
    Memory,
    /// Nothing was done.
    Refused(Refusal),
}
