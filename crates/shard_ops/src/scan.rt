//! What a scan needs and answers, by the records in its range.
ghost use Rattle.std.specs.Prelude.{◌≡◌, ◌++◌, map, IfOk, OnOk};
ghost use Rattle.std.specs.List.{filter_map};
ghost use Rattle.clv_base.specs.declared.modes.Part.TheVariants.{S as Shared};
ghost use Rattle.clv_base.specs.declared.modes.Anchor.TheVariants.{At};
ghost use Rattle.clv_base.specs.Modes.{on_both as both_mode};
ghost use Rattle.clv_base.specs.Needs.{found_at, need, gap_below as gap_by};
ghost use Rattle.shard_ops.specs.Planned.{pair_of};

use crate::needs::{on_both, on_gap};
use clv_base::modes::{Anchor, Found, Need, Part};
use clv_base::values::Value;
use lock_table::Memory;
use ordered_store::Store;
use std::alloc::{AllocError, Global};

/// The lock on one record of the range and the gap above it.
fn row_need(row: &(u64, Found)) -> Need
    ensures { result ≡ need (At row.now.0) (both_mode Shared) }
{
    Need {
        anchor: Anchor::At(row.0),
        mode: on_both(Part::S),
    }
}

/// The lock on the gap below the range, where its lower end is no record.
fn gap_below<S: Store>(alloc: Global, store: &S, low: u64) -> Result<Vec<Need>, AllocError>
    ensures { IfOk result (λ needs. needs.items ≡ gap_by low (S.records store.now) (found_at low (S.records store.now))) }
{
    match store.get(low) {
        Found::Live(_) | Found::Ghost => Ok(Vec::new(alloc)),
        Found::Absent => Ok(vec![in alloc;
            Need {
                anchor: store.anchor_of(low),
                mode: on_gap(Part::S),
            },
        ]?),
    }
}

/// Puts the locks on all records of the range behind the others.
fn push_rows(needs: &mut Vec<Need>, rows: &[(u64, Found)]) -> Result<(), AllocError>
    ensures { OnOk result (needs.new.items ≡ needs.old.items ++ map (λ r. need (At r.0) (both_mode Shared)) rows.now) }
{
    for row in rows {
        needs.push(row_need(row))?;
    }
    Ok(())
}

/// What a scan needs: each record of the range with the gap above it, and the gap below the range where its lower end is no record.
pub(crate) fn scan_needs<S: Store>(
    alloc: Global,
    store: &S,
    low: u64,
    rows: &[(u64, Found)],
) -> Result<Vec<Need>, AllocError>
    ensures { IfOk result (λ needs. needs.items ≡ gap_by low (S.records store.now) (found_at low (S.records store.now)) ++ map (λ r. need (At r.0) (both_mode Shared)) rows.now) }
{
    let mut needs = gap_below(alloc, store, low)?;
    push_rows(&mut needs, rows)?;
    Ok(needs)
}

/// A row's pair, where it is live.
fn live_pair(row: &(u64, Found)) -> Option<(u64, Value)>
    ensures { result ≡ pair_of row.now }
{
    match &row.1 {
        Found::Live(value) => Some((row.0, value.copy())),
        Found::Ghost | Found::Absent => None,
    }
}

/// The pairs of the live rows.
pub(crate) fn pairs_of(
    alloc: Global,
    rows: &[(u64, Found)],
) -> Result<Vec<(u64, Value)>, AllocError>
    ensures { IfOk result (λ pairs. pairs.items ≡ filter_map pair_of rows.now) }
{
    rows.iter().filter_map(live_pair).collect(alloc)
}
