//! One block of records.
ghost use Rattle.std.specs.Prelude.{◌≡◌, ◌≤◌, ◌<◌, ◌+◌, ◌||◌, ◌==◌, ℕ, [], true, not, take, drop, length, nat_lt, IsTrue, if◌then◌else◌, vec_len, vec_capacity};
ghost use Rattle.std.specs.List.{filter};
ghost use Rattle.std.specs.Ordering.{nat_cmp};
ghost use Rattle.std.specs.FinMap.{is_sorted};
ghost use Rattle.clv_base.specs.Needs.{found_at, is_there, value_at, record_set};
ghost use Rattle.ordered_store.specs.Records.{Begins, Starts};

use crate::rows::{self, Row};
use clv_base::values::Value;

/// How many records a block may have. It has room for one more.
pub(crate) const MOST: usize = 64;

/// How many stay below, where a block is cut.
const LOWER: usize = 33;

/// Records by rising keys, and the least of the keys.
#[derive(Drop)]
pub(crate) struct Block {
    pub fence: u64,
    pub rows: Vec<Row>,
}

/// The least key.
fn least(rows: &[Row]) -> u64
    requires { 0 < length rows.now }
    ensures { Begins result rows.now }
{
    rows[0].0
}

/// Puts a value or a ghost at a key, and gives the live value before.
pub(crate) fn put_in(block: &mut Block, key: u64, value: Option<Value>) -> Option<Value>
    requires rising { is_sorted nat_cmp block.old.rows.items ≡ true }
    requires room { vec_len block.old.rows < vec_capacity block.old.rows }
    ensures before { result ≡ value_at key block.old.rows.items }
    ensures rows { block.new.rows.items ≡ record_set key value block.old.rows.items }
    ensures rising { is_sorted nat_cmp block.new.rows.items ≡ true }
    ensures fence { Begins block.new.fence block.new.rows.items }
    ensures capacity { vec_capacity block.new.rows ≡ vec_capacity block.old.rows }
    ensures count { vec_len block.new.rows ≡ vec_len block.old.rows + (if is_there (found_at key block.old.rows.items) then 0 else 1) }
{
    let before = rows::put(&mut block.rows, key, value);
    block.fence = least(&block.rows);
    before
}

/// Takes the record at a key away, and tells whether no record is left.
pub(crate) fn take_out(block: &mut Block, key: u64) -> bool
    requires rising { is_sorted nat_cmp block.old.rows.items ≡ true }
    requires there { IsTrue (is_there (found_at key block.old.rows.items)) }
    ensures rows { block.new.rows.items ≡ filter (λ r. not (r.0 == key)) block.old.rows.items }
    ensures rising { is_sorted nat_cmp block.new.rows.items ≡ true }
    ensures fence { Starts block.new.fence block.new.rows.items }
    ensures room { (vec_capacity block.new.rows ≡ vec_capacity block.old.rows) × (vec_len block.new.rows ≤ vec_len block.old.rows) }
    ensures emptied { result ≡ (length block.new.rows.items == 0) }
{
    rows::take(&mut block.rows, key);
    if block.rows.is_empty() {
        return true;
    }
    block.fence = least(&block.rows);
    false
}

/// Cuts a block of 65 records after the 33rd. The last 32 go into a block of their own.
pub(crate) fn cut_off(block: &mut Block, mut spare: Vec<Row>) -> Block
    requires long { vec_len block.old.rows ≡ 65 }
    requires empty { spare.items ≡ [] }
    requires room { 65 ≤ vec_capacity spare }
    ensures lower { block.new.rows.items ≡ take 33 block.old.rows.items }
    ensures upper { result.rows.items ≡ drop 33 block.old.rows.items }
    ensures fence { block.new.fence ≡ block.old.fence }
    ensures fence_above { Begins result.fence result.rows.items }
    ensures sizes { (vec_len block.new.rows ≡ 33) × (vec_len result.rows ≡ 32) }
    ensures room { (vec_capacity block.new.rows ≡ vec_capacity block.old.rows) × (65 ≤ vec_capacity result.rows) }
{
    rows::copy_to(&mut spare, &block.rows[LOWER..]);
    block.rows.truncate(LOWER);
    Block {
        fence: least(&spare),
        rows: spare,
    }
}
