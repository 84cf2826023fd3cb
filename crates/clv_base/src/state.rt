// What a shard keeps of each transaction.

use crate::causes::{AbortCause, Vote};
use crate::lists::{Touched, Votes};
use crate::names::{Birth, TxId};
use crate::parts::ShardList;

/// How far a part is. One that is gone names the transaction whose abort took it away, if one did.
#[derive(Clone, Copy, PartialEq, Eq)]
pub enum Stage {
    /// It may have more operations.
    Active,
    /// Its transaction has made its request: its locks may be violated.
    Closed,
    /// It holds nothing any more.
    Gone { doom: Option<TxId> },
}

/// The part of a transaction on a shard: whether a restart found it in doubt, and whether a Drop of it came.
#[derive(Clone, Copy, PartialEq, Eq)]
pub struct Held {
    pub birth: Birth,
    pub stage: Stage,
    pub is_restored: bool,
    pub is_dropped: bool,
}

/// What is known of a part as one that votes: how many votes it owes, one for each Prepare that came, and the one given first.
#[derive(Clone, Copy, PartialEq, Eq)]
pub struct Voter {
    pub home: u32,
    pub seen: u64,
    pub owed: u64,
    pub vote: Option<Vote>,
}

/// What the home has ruled of a request.
#[derive(Drop)]
pub enum RequestState {
    /// Nothing yet.
    Undecided,
    /// A commit; these shards acknowledge it.
    Committed { parts: ShardList },
    /// It only read, and is acknowledged.
    Finished,
    /// An abort.
    Refused { cause: AbortCause },
}

/// A request at its home: the touched shards with their epochs, the votes that came, the ruling, and the acknowledgements of its commit.
#[derive(Drop)]
pub struct Request {
    pub touched: Touched,
    pub votes: Votes,
    pub state: RequestState,
    pub acknowledged_by: ShardList,
    pub is_ended: bool,
}

/// What becomes due of a request at its home.
#[derive(Drop)]
pub enum Ruling {
    /// A COMMIT with the shards that voted yes.
    Commit { parts: ShardList },
    /// The end of a transaction that only read.
    Acknowledge,
    /// An abort, and the shards that must be told of it.
    Abort { cause: AbortCause, to: ShardList },
    /// An END: all acknowledgements of its commit are in.
    End,
}

/// What a part makes of a decision that comes: it is done already, it waited for it, or the decision is stale.
#[derive(Clone, Copy, PartialEq, Eq)]
pub enum Taken {
    Done,
    Waiting,
    Stale,
}
