//! The lock that an operation on one key needs.
ghost use Rattle.std.specs.Prelude.{◌≡◌, [], ◌∷◌};
ghost use Rattle.clv_base.specs.declared.values.Value.{Value as ValueType};
ghost use Rattle.clv_base.specs.Modes.{on_key as key_mode, on_gap as gap_mode, on_both as both_mode};
ghost use Rattle.clv_base.specs.Needs.{needs_by};
ghost use Rattle.shard_ops.specs.Planned.{lock_at as lock_by};

use clv_base::modes::{Anchor, Found, Mode, Need, Part};
use clv_base::ops::Op;
use clv_base::values::Value;
use ordered_store::Store;

/// A mode on a record alone.
pub(crate) fn on_key(part: Part) -> Mode
    ensures { result ≡ key_mode part }
{
    Mode {
        key: part,
        gap: Part::N,
    }
}

/// A mode on a gap alone.
pub(crate) fn on_gap(part: Part) -> Mode
    ensures { result ≡ gap_mode part }
{
    Mode {
        key: Part::N,
        gap: part,
    }
}

/// A mode on a record and the gap above it.
pub(crate) fn on_both(part: Part) -> Mode
    ensures { result ≡ both_mode part }
{
    Mode {
        key: part,
        gap: part,
    }
}

/// A lock on the record at a key, where there is one, else on the gap that the key lies in.
fn lock_at<S: Store>(store: &S, key: u64, found: &Found, there: Part, beside: Part) -> Need
    ensures { result ≡ lock_by key (S.records store.now) there beside found.now }
{
    match found {
        Found::Live(_) | Found::Ghost => Need {
            anchor: Anchor::At(key),
            mode: on_key(there),
        },
        Found::Absent => Need {
            anchor: store.anchor_of(key),
            mode: on_gap(beside),
        },
    }
}

/// What a read of a key needs, by what stands there.
pub(crate) fn get_need<S: Store>(store: &S, key: u64, found: &Found) -> Need
    ensures { result ∷ [] ≡ needs_by (Op.Get key) (S.records store.now) found.now }
{
    lock_at(store, key, found, Part::S, Part::S)
}

/// What putting a value at a key needs.
pub(crate) fn put_need<S: Store>(store: &S, key: u64, found: &Found) -> Need
    ensures { (value : ValueType) → result ∷ [] ≡ needs_by (Op.Put key value) (S.records store.now) found.now }
{
    lock_at(store, key, found, Part::X, Part::X)
}

/// What adding to a key needs: it adds to a number alone, and reads what else stands there.
pub(crate) fn add_need<S: Store>(store: &S, key: u64, by: u64, found: &Found) -> Need
    ensures { result ∷ [] ≡ needs_by (Op.Add key by) (S.records store.now) found.now }
{
    let there = match found {
        Found::Live(Value::Num(_)) => Part::I,
        Found::Live(Value::Bytes(_)) => Part::S,
        Found::Ghost | Found::Absent => Part::S,
    };
    lock_at(store, key, found, there, Part::S)
}

/// What deleting a key needs: it writes a live record alone.
pub(crate) fn del_need<S: Store>(store: &S, key: u64, found: &Found) -> Need
    ensures { result ∷ [] ≡ needs_by (Op.Del key) (S.records store.now) found.now }
{
    let there = match found {
        Found::Live(_) => Part::X,
        Found::Ghost | Found::Absent => Part::S,
    };
    lock_at(store, key, found, there, Part::S)
}
