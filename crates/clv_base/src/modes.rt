// Lock modes, anchors, needs and holders.

use crate::names::{Birth, TxId};
use crate::values::Value;

/// What is held of a key or of a gap: nothing, a shared lock, one of those that add, or an exclusive lock.
#[derive(Clone, Copy, PartialEq, Eq)]
pub enum Part {
    N,
    S,
    I,
    X,
}

/// What is held of a record and of the gap above it.
#[derive(Clone, Copy, PartialEq, Eq)]
pub struct Mode {
    pub key: Part,
    pub gap: Part,
}

/// What a lock is on: a record, or the place below the first one.
#[derive(Clone, Copy, PartialEq, Eq, PartialOrd, Ord)]
pub enum Anchor {
    /// The place below all records of the shard.
    Low,
    /// The record at this key.
    At(u64),
}

/// A mode that is asked for on an anchor.
#[derive(Clone, Copy, PartialEq, Eq)]
pub struct Need {
    pub anchor: Anchor,
    pub mode: Mode,
}

/// Who holds what on an anchor. A closed holder's transaction has made its request, so its locks may be violated.
#[derive(Clone, Copy, PartialEq, Eq)]
pub struct Holder {
    pub tx: TxId,
    pub birth: Birth,
    pub mode: Mode,
    pub closed: bool,
}

/// What is decided on a request for locks.
#[derive(Clone, Copy, PartialEq, Eq)]
pub enum Decision {
    /// Every holder in the way is closed.
    Grant,
    /// The requester is older than all active holders in the way, of whom this is the oldest.
    Wait { younger: TxId },
    /// This is the oldest of the active holders in the way that are older than the requester.
    Die { older: TxId },
}

/// What stands at a key.
#[derive(PartialEq, Eq, Drop)]
pub enum Found {
    /// A record with this value.
    Live(Value),
    /// A record that was deleted and that a lock may still need.
    Ghost,
    /// No record.
    Absent,
}
