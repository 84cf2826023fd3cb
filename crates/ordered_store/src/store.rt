//! What a store promises, whatever it keeps its records in.
ghost use Rattle.std.specs.Prelude.{◌≡◌, ◌≤◌, ◌+◌, ◌||◌, ◌==◌, ℕ, true, not, map, nat_lt, [], None, Some, OnOk, IfOk, IsTrue, if◌then◌else◌};
ghost use Rattle.std.specs.List.{filter};
ghost use Rattle.std.specs.Ordering.{nat_cmp};
ghost use Rattle.std.specs.FinMap.{is_sorted};
ghost use Rattle.clv_base.specs.Needs.{Records, found_at, found_by, is_there, value_at, record_set, lower_anchor, records_between};

use clv_base::modes::{Anchor, Found};
use clv_base::values::Value;
use std::alloc::{AllocError, Global};

/// Records by rising keys. A record is live, with a value, or a ghost.
pub trait Store: Sized {
    /// All records, live ones and ghosts, by rising keys.
    ghost records: { Self → Records };

    /// For how many records more there is room.
    ghost room: { Self → ℕ };

    /// A store with no records.
    fn empty(alloc: Global) -> Result<Self, AllocError>
        ensures { IfOk result (λ store. records store ≡ []) };

    /// What stands at a key.
    fn get(&self, key: u64) -> Found
        ensures { result ≡ found_at key (records self.now) };

    /// Makes room for so many records more, whatever was reserved before. Room alone changes, and never shrinks.
    fn reserve(&mut self, count: usize) -> Result<(), AllocError>
        ensures ok { OnOk result (count ≤ room self.new) }
        ensures room { room self.old ≤ room self.new }
        ensures records { records self.new ≡ records self.old };

    /// Sets the value at a key, and gives the live value before. Takes no memory.
    fn set(&mut self, key: u64, value: Value) -> Option<Value>
        requires { IsTrue (is_there (found_at key (records self.old)) || nat_lt 0 (room self.old)) }
        ensures before { result ≡ value_at key (records self.old) }
        ensures records { records self.new ≡ record_set key (Some value) (records self.old) }
        ensures room { room self.old ≤ room self.new + (if is_there (found_at key (records self.old)) then 0 else 1) };

    /// Makes the record at a key a ghost. Takes no memory.
    fn hide(&mut self, key: u64)
        requires { IsTrue (is_there (found_at key (records self.old))) }
        ensures records { records self.new ≡ record_set key None (records self.old) }
        ensures room { room self.old ≤ room self.new };

    /// Takes a ghost away. Takes no memory.
    fn purge(&mut self, key: u64)
        requires { found_at key (records self.old) ≡ Found.Ghost }
        ensures records { records self.new ≡ filter (λ r. not (r.0 == key)) (records self.old) }
        ensures room { room self.old ≤ room self.new };

    /// The greatest record below a key, live or a ghost.
    fn anchor_of(&self, key: u64) -> Anchor
        ensures { result ≡ lower_anchor key (records self.now) };

    /// All records from a key to another, both in, by rising keys.
    fn range(&self, alloc: Global, low: u64, high: u64) -> Result<Vec<(u64, Found)>, AllocError>
        ensures { IfOk result (λ rows. rows.items ≡ map (λ r. (r.0, found_by (Some r.1))) (records_between low high (records self.now))) };

    /// The keys of the records rise.
    ghost rising: { (s : Self) → is_sorted nat_cmp (records s) ≡ true };
}
