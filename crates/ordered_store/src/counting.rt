//! A look-up that counts its comparisons.
ghost use Rattle.std.specs.Prelude.{◌≡◌, ◌≤◌, ◌<◌, ◌+◌, ◌-◌, ◌*◌, ◌^◌, ℕ, true, length};
ghost use Rattle.std.specs.Ordering.{nat_cmp};
ghost use Rattle.std.specs.FinMap.{is_sorted};
ghost use Rattle.clv_base.specs.Needs.{found_at};
ghost use Rattle.ordered_store.specs.Blocks.{Chained, Sized, flat, slot_of};

use crate::block::Block;
use crate::rows::Row;
use crate::search::search;
use crate::steps::Steps;
use clv_base::modes::Found;
use std::sync::ledger::Ledger;

/// Which block has the place of a key.
fn slot_counting<L: Ledger>(blocks: &[Block], key: u64, steps: &mut Steps<L>) -> usize
    requires { Chained blocks.now }
    ensures slot { result ≡ slot_of key blocks.now }
    ensures within { result < length blocks.now }
    ensures cost { (steps.old ≤ steps.new) × (2 ^ (steps.new - steps.old) ≤ 2 * length blocks.now + 1) }
{
    match search(&blocks[1..], key, steps) {
        Ok(at) => at + 1,
        Err(at) => at,
    }
}

/// What stands at a key in one block.
fn row_counting<L: Ledger>(rows: &[Row], key: u64, steps: &mut Steps<L>) -> Found
    requires { is_sorted nat_cmp rows.now ≡ true }
    ensures found { result ≡ found_at key rows.now }
    ensures cost { (steps.old ≤ steps.new) × (2 ^ (steps.new - steps.old) ≤ 2 * length rows.now + 1) }
{
    match search(rows, key, steps) {
        Ok(at) => rows[at].1.found(),
        Err(_) => Found::Absent,
    }
}

/// What stands at a key.
pub(crate) fn get_counting<L: Ledger>(blocks: &[Block], key: u64, steps: &mut Steps<L>) -> Found
    requires chained { Chained blocks.now }
    requires sized { Sized blocks.now }
    ensures found { result ≡ found_at key (flat blocks.now) }
    ensures cost { (s : ℕ) × ((2 ^ s ≤ 2 * length blocks.now + 1) × (steps.new ≤ steps.old + s + 7)) }
{
    let slot = slot_counting(blocks, key, steps);
    row_counting(&blocks[slot].rows, key, steps)
}
