// Lists of shards that rise.

ghost use Rattle.std.specs.Prelude.{◌≡◌, ◌<◌, ◌≤◌, ◌+◌, ◌++◌, ◌∷◌, [], ℕ, List, length, cond, nat_eq};
ghost use Rattle.clv_base.specs.Orders.{nat_in, nat_insert};

use crate::parts::ShardList;
use std::cmp::Ordering;

/// Whether the shard goes before this one of a list.
fn is_first(shard: u32, one: u32) -> bool
    ensures { (xs : List ℕ) → nat_insert shard (one ∷ xs) ≡ cond result (shard ∷ one ∷ xs) (cond (nat_eq shard one) (one ∷ xs) (one ∷ nat_insert shard xs)) }
{
    shard < one
}

impl ShardList {
    /// The same list once more. Takes no memory.
    pub fn copied(&self) -> ShardList
        ensures { result ≡ self.now }
    {
        ShardList {
            shards: self.shards,
            count: self.count,
        }
    }

    /// Whether the shard is one of them.
    pub fn contains(&self, shard: u32) -> bool
        ensures { result ≡ nat_in shard self.now }
    {
        self.as_slice().iter().any(|one| shard == *one)
    }

    /// Copies one of a list behind the shard, if that goes before it and isn't in yet; tells whether it is in.
    fn copy(&mut self, is_in: bool, shard: u32, one: u32) -> bool
        requires { length self.old + cond is_in 1 2 ≤ 15 }
        ensures list { (xs : List ℕ) → self.new ++ cond result xs (nat_insert shard xs) ≡ self.old ++ cond is_in (one ∷ xs) (nat_insert shard (one ∷ xs)) }
        ensures room { length self.new + cond result 0 1 ≤ length self.old + cond is_in 1 2 }
    {
        if !is_in && is_first(shard, one) {
            self.push(shard);
            self.push(one);
            return true;
        }
        self.push(one);
        is_in || shard == one
    }

    /// The list, which has fewer than 15, with a shard at its place among those that rise, once.
    pub fn with(&self, shard: u32) -> ShardList
        requires { length self.now < 15 }
        ensures { result ≡ nat_insert shard self.now }
    {
        let mut list = ShardList::new();
        let mut is_in = false;
        for one in self.as_slice() {
            is_in = list.copy(is_in, shard, *one);
        }
        if !is_in {
            list.push(shard);
        }
        list
    }
}
