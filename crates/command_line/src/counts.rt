// How many records of each shard are meant.

ghost use Rattle.std.specs.Prelude.{◌≡◌, ◌<◌, ◌≤◌, ℕ, List, length, take, slice_get, MatchOption};

use std::marker::Model;

/// Numbers of records, the one of shard i at place i: at most sixteen. A shard without a number has all its records.
#[derive(Drop)]
pub struct RecordCounts {
    counts: [u64; 16],
    shards: usize,
}

impl Model for RecordCounts {
    ghost Value = { List ℕ };

    ghost view = { λ c. take c.shards c.counts };

    ghost invariant = { λ c. c.shards ≤ 16 };
}

impl RecordCounts {
    /// The counts of this list; none where there are more than sixteen.
    pub fn new(list: &[u64]) -> Option<Self>
        ensures { MatchOption result (16 < length list.now) (λ counts. (counts ≡ list.now) × (length list.now ≤ 16)) }
    {
        if list.len() > 16 {
            return None;
        }
        let mut counts = [0; 16];
        counts[..list.len()].copy_from_slice(list);
        Some(RecordCounts {
            counts,
            shards: list.len(),
        })
    }

    /// The counts as a list.
    pub fn as_slice(&self) -> &[u64]
        ensures { result.now ≡ self.now }
    {
        &self.counts[..self.shards]
    }

    /// How many of a shard's records are meant; none where all are.
    pub fn of(&self, shard: usize) -> Option<u64>
        ensures { result ≡ slice_get self.now shard }
    {
        self.as_slice().get(shard).copied()
    }
}
