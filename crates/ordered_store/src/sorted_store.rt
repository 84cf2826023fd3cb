//! A store in one sorted list.
ghost use Rattle.std.specs.Prelude.{◌≡◌, ◌-◌, [], true, vec_len, vec_capacity};
ghost use Rattle.std.specs.Ordering.{nat_cmp};
ghost use Rattle.std.specs.FinMap.{is_sorted};

use crate::rows::{Row, anchor_below, between, get, put, take};
use crate::store::Store;
use clv_base::modes::{Anchor, Found};
use clv_base::values::Value;
use std::alloc::{AllocError, Global};

/// All records in one list, by rising keys. A look-up is a binary search; a new key, and one that goes, move what lies above.
#[derive(Drop)]
pub struct SortedStore {
    rows: Vec<Row>,
    ghost rising: { is_sorted nat_cmp rows.items ≡ true },
}

impl SortedStore {
    /// A store with no records. Takes no memory.
    pub fn new(alloc: Global) -> SortedStore
        ensures { ⟦<SortedStore as Store>⟧.records result ≡ [] }
    {
        SortedStore {
            rows: Vec::new(alloc),
        }
    }
}

impl Store for SortedStore {
    ghost records = { λ s. s.rows.items };

    ghost room = { λ s. vec_capacity s.rows - vec_len s.rows };

    fn empty(alloc: Global) -> Result<Self, AllocError> {
        Ok(SortedStore::new(alloc))
    }

    fn get(&self, key: u64) -> Found {
        get(&self.rows, key)
    }

    fn reserve(&mut self, count: usize) -> Result<(), AllocError> {
        self.rows.reserve(count)
    }

    fn set(&mut self, key: u64, value: Value) -> Option<Value> {
        put(&mut self.rows, key, Some(value))
    }

    fn hide(&mut self, key: u64) {
        put(&mut self.rows, key, None);
    }

    fn purge(&mut self, key: u64) {
        take(&mut self.rows, key);
    }

    fn anchor_of(&self, key: u64) -> Anchor {
        anchor_below(&self.rows, key)
    }

    fn range(&self, alloc: Global, low: u64, high: u64) -> Result<Vec<(u64, Found)>, AllocError> {
        between(alloc, &self.rows, low, high)
    }

    ghost rising = { λ s. s.rising };
}
