// Why transactions are aborted.

use crate::names::TxId;

/// Why a part votes no.
#[derive(Clone, Copy, PartialEq, Eq)]
pub enum NoWhy {
    /// The abort of this transaction took the part away.
    Doomed { tx: TxId },
    /// The part isn't known, and the session had seen another epoch of the shard.
    Restarted { seen: u64, now: u64 },
}

/// Why a transaction is aborted.
#[derive(Clone, Copy, PartialEq, Eq)]
pub enum AbortCause {
    /// Its session asked for it.
    Asked,
    /// An older active transaction held what it needed.
    Died { older: TxId },
    /// The abort of this transaction, which it had violated, directly or through others, took it away.
    Predecessor { tx: TxId },
    /// That shard voted no.
    NoVote { shard: u32, why: NoWhy },
    /// The shard was restarted: the session had seen an epoch that isn't the shard's now.
    Restarted { shard: u32, seen: u64, now: u64 },
}

/// The vote of a part.
#[derive(Clone, Copy, PartialEq, Eq)]
pub enum Vote {
    /// It wrote, and can commit.
    Yes,
    /// It only read, and takes no part in what follows.
    Read,
    /// It can't commit.
    No(NoWhy),
}
