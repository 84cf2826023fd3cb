//! Records put into blocks, and taken away.
ghost use Rattle.std.specs.Prelude.{◌≡◌, ◌≤◌, ◌<◌, ◌+◌, ◌-◌, ◌*◌, ◌∷◌, ◌||◌, ◌==◌, ℕ, true, not, length, nat_lt, IsTrue, IfSome, if◌then◌else◌, option_to_list, vec_len, vec_capacity};
ghost use Rattle.std.specs.List.{filter};
ghost use Rattle.std.specs.Ordering.{nat_cmp};
ghost use Rattle.std.specs.FinMap.{is_sorted};
ghost use Rattle.clv_base.specs.Needs.{found_at, is_there, value_at, record_set};
ghost use Rattle.ordered_store.specs.Records.{Begins};
ghost use Rattle.ordered_store.specs.Blocks.{Chain, Chained, Sized, Empties, excess, flat, room_of};

use crate::block::{Block, MOST, cut_off, put_in, take_out};
use crate::block_finding::slot;
use crate::rows::Row;
use clv_base::values::Value;

/// Puts a value or a ghost at a key, and gives the live value before. The 65th record cuts the block, and the upper part is given.
fn put_and_cut(
    block: &mut Block,
    spares: &mut Vec<Vec<Row>>,
    key: u64,
    value: Option<Value>,
) -> (Option<Value>, Option<Block>)
    requires rising { is_sorted nat_cmp block.old.rows.items ≡ true }
    requires size { (vec_len block.old.rows ≤ 64) × (65 ≤ vec_capacity block.old.rows) }
    requires empties { Empties spares.old.items }
    requires room { IsTrue (is_there (found_at key block.old.rows.items) || nat_lt 0 (vec_len spares.old) || nat_lt (vec_len block.old.rows) 64) }
    ensures before { result.0 ≡ value_at key block.old.rows.items }
    ensures rows { flat (block.new ∷ option_to_list result.1) ≡ record_set key value block.old.rows.items }
    ensures chain { Chain block.new (option_to_list result.1) }
    ensures fence { Begins block.new.fence block.new.rows.items }
    ensures sized { Sized (block.new ∷ option_to_list result.1) }
    ensures cut { IfSome result.1 (λ upper. (vec_len block.new.rows ≡ 33) × (vec_len upper.rows ≡ 32)) }
    ensures empties { Empties spares.new.items }
    ensures spares { vec_len spares.old ≡ vec_len spares.new + length (option_to_list result.1) }
    ensures room { vec_len spares.old ≤ vec_len spares.new + (if is_there (found_at key block.old.rows.items) then 0 else 1) }
    ensures excess { excess (block.new ∷ option_to_list result.1) + 32 * length (option_to_list result.1) ≤ (vec_len block.old.rows - 33) + (if is_there (found_at key block.old.rows.items) then 0 else 1) }
{
    let before = put_in(block, key, value);
    if block.rows.len() <= MOST {
        return (before, None);
    }
    let Some(spare) = spares.pop() else {
        unreachable!()
    };
    (before, Some(cut_off(block, spare)))
}

/// Puts a value or a ghost at a key, and gives the live value before. The 65th record of a block cuts it, into rows that were spare.
pub(crate) fn put(
    blocks: &mut Vec<Block>,
    spares: &mut Vec<Vec<Row>>,
    key: u64,
    value: Option<Value>,
) -> Option<Value>
    requires chained { Chained blocks.old.items }
    requires sized { Sized blocks.old.items }
    requires empties { Empties spares.old.items }
    requires slots { vec_len blocks.old + vec_len spares.old ≤ vec_capacity blocks.old }
    requires room { IsTrue (is_there (found_at key (flat blocks.old.items)) || nat_lt 0 (room_of blocks.old.items (vec_len spares.old))) }
    ensures before { result ≡ value_at key (flat blocks.old.items) }
    ensures rows { flat blocks.new.items ≡ record_set key value (flat blocks.old.items) }
    ensures chained { Chained blocks.new.items }
    ensures rising { is_sorted nat_cmp (flat blocks.new.items) ≡ true }
    ensures sized { Sized blocks.new.items }
    ensures empties { Empties spares.new.items }
    ensures slots { vec_len blocks.new + vec_len spares.new ≤ vec_capacity blocks.new }
    ensures room { room_of blocks.old.items (vec_len spares.old) ≤ room_of blocks.new.items (vec_len spares.new) + (if is_there (found_at key (flat blocks.old.items)) then 0 else 1) }
{
    let at = slot(blocks, key);
    let (before, upper) = put_and_cut(&mut blocks[at], spares, key, value);
    if let Some(upper) = upper {
        let Ok(()) = blocks.insert(at + 1, upper) else {
            unreachable!()
        };
    }
    before
}

/// Takes the record at a key away. A block that is emptied goes, unless it is the only one.
pub(crate) fn take(blocks: &mut Vec<Block>, key: u64)
    requires chained { Chained blocks.old.items }
    requires sized { Sized blocks.old.items }
    requires there { IsTrue (is_there (found_at key (flat blocks.old.items))) }
    ensures rows { flat blocks.new.items ≡ filter (λ r. not (r.0 == key)) (flat blocks.old.items) }
    ensures chained { Chained blocks.new.items }
    ensures rising { is_sorted nat_cmp (flat blocks.new.items) ≡ true }
    ensures sized { Sized blocks.new.items }
    ensures slots { (vec_capacity blocks.new ≡ vec_capacity blocks.old) × (vec_len blocks.new ≤ vec_len blocks.old) }
    ensures excess { excess blocks.new.items ≤ excess blocks.old.items }
{
    let at = slot(blocks, key);
    let emptied = take_out(&mut blocks[at], key);
    if emptied && blocks.len() > 1 {
        blocks.remove(at);
    }
}
