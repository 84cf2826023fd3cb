// The part of a transaction on a shard.

ghost use Rattle.std.specs.Prelude.{◌≡◌, ℕ, List, [], ◌∷◌, ◌++◌, ◌≤◌, ◌<◌, length, take};

use crate::names::TxId;
use std::marker::Model;

/// How far the part of a transaction is.
#[derive(Clone, Copy, PartialEq, Eq)]
pub enum PartState {
    Unknown,
    Active,
    Closed,
    Gone,
}

/// What votes and decisions depend on.
#[derive(Clone, Copy, PartialEq, Eq)]
pub struct PartFacts {
    pub state: PartState,
    pub now: u64,
    pub updates: bool,
    pub restored: bool,
    pub doom: Option<TxId>,
    pub prepare: Option<u64>,
    pub commit: Option<u64>,
    pub rolled: Option<u64>,
    pub undecided: usize,
    pub due_lsn: Option<u64>,
    pub durable: u64,
}

/// The shards of a commit.
#[derive(Clone, Drop)]
pub struct ShardList {
    pub(crate) shards: [u32; 15],
    pub(crate) count: usize,
}

impl Model for ShardList {
    ghost Value = { List ℕ };

    ghost view = { λ s. take s.count s.shards };

    ghost invariant = { λ s. s.count ≤ 15 };
}

impl ShardList {
    /// The list of no shard.
    pub fn new() -> Self
        ensures { result ≡ [] }
    {
        ShardList {
            shards: [0; 15],
            count: 0,
        }
    }

    /// Puts a shard at the end of a list of fewer than 15.
    pub fn push(&mut self, shard: u32)
        requires { length self.old < 15 }
        ensures { self.new ≡ self.old ++ shard ∷ [] }
    {
        self.shards[self.count] = shard;
        self.count += 1;
    }

    /// The shards, in order: at most 15.
    pub fn as_slice(&self) -> &[u32]
        ensures shards { result.now ≡ self.now }
        ensures few { length self.now ≤ 15 }
    {
        &self.shards[..self.count]
    }
}
