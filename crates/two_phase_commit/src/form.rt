//! How a request is kept.

use crate::joint::Joint;
use clv_base::names::TxId;

/// How far a request of one shard is.
#[derive(Clone, Copy)]
pub(crate) enum Stage {
    /// Nothing is ruled.
    Undecided,
    /// A commit, of which no other shard is told.
    Committed,
    /// It only read, and is acknowledged.
    Finished,
    /// An abort that its session asked for.
    Asked,
}

/// A request in as few bytes as it takes.
#[derive(Drop)]
pub(crate) enum Form {
    /// It touched its home alone: no vote and no acknowledgement will come.
    Alone {
        shard: u32,
        epoch: u64,
        stage: Stage,
    },
    /// Such a one that the abort of another transaction took away.
    Lost {
        shard: u32,
        epoch: u64,
        to: TxId,
    },
    /// Others take part, or a restart found it.
    Shared(Box<Joint>),
}
