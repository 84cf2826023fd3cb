// Names of transactions, their ages and places in time.

/// A key of the store.
pub type Key = u64;

/// A transaction: the run of the store that it belongs to (from 1), its session (1 to 64), and its number there (from 1).
/// Transactions are ordered by these fields, in this order.
#[derive(Clone, Copy, PartialEq, Eq, PartialOrd, Ord)]
pub struct TxId {
    pub run: u32,
    pub session: u32,
    pub serial: u64,
}

/// The age of a transaction: the stamp at which its first try began, the session, and a number. Births are ordered by these fields, in this
/// order; the smaller is older. A transaction that is tried again keeps its birth.
#[derive(Clone, Copy, PartialEq, Eq, PartialOrd, Ord)]
pub struct Birth {
    pub stamp: u64,
    pub session: u32,
    pub serial: u64,
}

/// A place in a history: the stamp of an entry, and its shard.
#[derive(Clone, Copy, PartialEq, Eq, PartialOrd, Ord)]
pub struct Point {
    pub stamp: u64,
    pub shard: u32,
}
