// Which shard a key belongs to.

ghost use Rattle.std.specs.Prelude.{◌≡◌, ◌==◌, ◌+◌, ◌<◌, ◌≤◌, ◌^◌, ◌↔◌, ℕ, List, Some, Err, length, take, is_ok, IsTrue, IfOk};
ghost use Rattle.clv_base.specs.Shards.{are_splits, lies_within, not_rising, not_rising_from, shard_count, shard_of, span};
ghost use Rattle.clv_base.specs.declared.splits.SplitsError.TheVariants.{TooMany, NotRising};

use std::marker::Model;

/// Why a list is not one of splits.
#[derive(Clone, Copy, PartialEq, Eq)]
pub enum SplitsError {
    /// There are more than fifteen.
    TooMany { count: usize },
    /// The number at this place, counted from 1, is the first that is not greater than the one before.
    NotRising { place: usize },
}

/// The keys at which the shards above the first begin: at most fifteen, rising.
#[derive(Drop)]
pub struct Splits {
    keys: [u64; 15],
    count: usize,
}

impl Model for Splits {
    ghost Value = { List ℕ };

    ghost view = { λ s. take s.count s.keys };

    ghost invariant = { λ s. (s.count ≤ 15) × IsTrue (are_splits (take s.count s.keys)) };
}

/// The first place, counted on from `place`, whose number is not greater than the one before.
fn first_not_rising(place: usize, before: u64, rest: &[u64]) -> Option<usize>
    requires { place + length rest.now < 2 ^ 64 }
    ensures { result ≡ not_rising_from place before rest.now }
{
    match rest {
        [] => None,
        [first, rest @ ..] if before < *first => first_not_rising(place + 1, *first, rest),
        _ => Some(place),
    }
}

impl Splits {
    /// The splits of this list. `TooMany` comes exactly where there are more than fifteen, else `NotRising` exactly where the list does not
    /// rise, with the first place where it does not.
    pub fn new(list: &[u64]) -> Result<Self, SplitsError>
        ensures ok { is_ok result ≡ are_splits list.now }
        ensures value { IfOk result (λ splits. splits ≡ list.now) }
        ensures too_many { (count : ℕ) → (result ≡ Err (TooMany count)) ↔ ((15 < length list.now) × (count ≡ length list.now)) }
        ensures not_rising { (place : ℕ) → (result ≡ Err (NotRising place)) ↔ ((length list.now ≤ 15) × (not_rising list.now ≡ Some place)) }
    {
        if list.len() > 15 {
            return Err(SplitsError::TooMany { count: list.len() });
        }
        if let [first, rest @ ..] = list {
            if let Some(place) = first_not_rising(2, *first, rest) {
                return Err(SplitsError::NotRising { place });
            }
        }
        let mut keys = [0; 15];
        keys[..list.len()].copy_from_slice(list);
        Ok(Splits {
            keys,
            count: list.len(),
        })
    }

    /// The splits as a list, which is one that `new` takes.
    pub fn as_slice(&self) -> &[u64]
        ensures value { result.now ≡ self.now }
        ensures splits { IsTrue (are_splits self.now) }
    {
        &self.keys[..self.count]
    }

    /// The shard of a key: how many splits are at most the key.
    pub fn shard_of(&self, key: u64) -> u32
        ensures shard { result ≡ shard_of self.now key }
        ensures below { result < shard_count self.now }
    {
        self.as_slice()
            .iter()
            .filter(|&&split| split <= key)
            .count() as u32
    }

    /// How many shards there are: one more than splits, so 1 to 16.
    pub fn shards(&self) -> u32
        ensures shards { result ≡ shard_count self.now }
        ensures most { result ≤ 16 }
    {
        self.count as u32 + 1
    }

    /// The range of a shard, both ends in: exactly the keys that belong to it. `None` where it has no key, as shard 0 under a first split 0,
    /// and where there is no such shard.
    pub fn span(&self, shard: u32) -> Option<(u64, u64)>
        ensures span { result ≡ span self.now shard }
        ensures keys { (key : ℕ) → key < 2 ^ 64 → lies_within result key ≡ (shard_of self.now key == shard) }
    {
        range_at(self.as_slice(), shard as usize)
    }
}

/// The range between the split before this place, or 0, and the one at it, or the greatest key.
fn range_at(splits: &[u64], place: usize) -> Option<(u64, u64)>
    ensures { result ≡ span splits.now place }
{
    if place > splits.len() {
        return None;
    }
    let first = if place == 0 { 0 } else { splits[place - 1] };
    if place == splits.len() {
        return Some((first, u64::MAX));
    }
    let next = splits[place];
    if first < next {
        Some((first, next - 1))
    } else {
        None
    }
}
