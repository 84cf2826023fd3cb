//! The gap parts that are held on an anchor, and their copies on a record that splits the gap.
ghost use Rattle.std.specs.Prelude.{◌≡◌, ◌≤◌, ◌+◌, [], map, vec_len, vec_capacity};
ghost use Rattle.std.specs.List.{filter};
ghost use Rattle.lock_table.specs.Rows.{gaps_held};
ghost use Rattle.clv_base.specs.Locks.{holds_gap, gap_alone, split_gap as with_gaps_copied};

use crate::rows::{Row, take_one};
use clv_base::modes::{Anchor, Holder, Part};

/// Whether a row holds the anchor's gap.
pub(crate) fn is_gap_held(anchor: Anchor, row: &Row) -> bool
    ensures { result ≡ holds_gap anchor row.now }
{
    anchor == row.0 && !matches!(row.1.mode.gap, Part::N)
}

/// Gathers the gap parts that are held on an anchor, in a list that is empty and has room for them.
fn gather(rows: &[Row], lower: Anchor, copies: &mut Vec<Holder>)
    requires room { (copies.old.items ≡ []) × (gaps_held lower rows.now ≤ vec_capacity copies.old) }
    ensures gathered { copies.new.items ≡ map (λ r. gap_alone r.1) (filter (holds_gap lower) rows.now) }
    ensures room { vec_capacity copies.new ≡ vec_capacity copies.old }
{
    for row in rows {
        if is_gap_held(lower, row) {
            let mut holder = row.1;
            holder.mode.key = Part::N;
            copies.push_reserved(holder);
        }
    }
}

/// Copies all gap parts that are held on `lower` to `new`, over a list that is empty and has room for them, and becomes empty again.
pub(crate) fn split_gap(rows: &mut Vec<Row>, lower: Anchor, new: Anchor, copies: &mut Vec<Holder>)
    requires rows { vec_len rows.old + gaps_held lower rows.old.items ≤ vec_capacity rows.old }
    requires copies { (copies.old.items ≡ []) × (gaps_held lower rows.old.items ≤ vec_capacity copies.old) }
    ensures rows { rows.new.items ≡ with_gaps_copied lower new rows.old.items }
    ensures room { (vec_capacity rows.new ≡ vec_capacity rows.old) × (vec_len rows.new ≤ vec_len rows.old + gaps_held lower rows.old.items) }
    ensures copies { (copies.new.items ≡ []) × (vec_capacity copies.new ≡ vec_capacity copies.old) }
{
    gather(rows, lower, copies);
    for holder in copies.iter() {
        take_one(rows, new, *holder);
    }
    copies.clear();
}
