//! Calls of a store.

use clv_base::values::Value;

/// A call of a store, on a key.
#[derive(Drop)]
pub enum StoreCall {
    /// What stands at the key.
    Get(u64),
    /// Sets the value at the key, and makes room for it first.
    Set { key: u64, value: Value },
    /// Makes the record at the key a ghost, where there is one.
    Hide(u64),
    /// Takes the record at the key away, where it is a ghost.
    Purge(u64),
    /// The greatest record below the key.
    AnchorOf(u64),
    /// All records from a key to another, both in.
    Range { low: u64, high: u64 },
}
