//! The block of a key.
ghost use Rattle.std.specs.Prelude.{◌≡◌, ◌≤◌, ◌<◌, length};
ghost use Rattle.clv_base.specs.Needs.{found_at, lower_anchor};
ghost use Rattle.ordered_store.specs.Blocks.{Chained, flat, slot_of, slot_below};

use crate::block::Block;
use crate::rows;
use clv_base::modes::{Anchor, Found};

/// Which block has the place of a key.
pub(crate) fn slot(blocks: &[Block], key: u64) -> usize
    requires { Chained blocks.now }
    ensures slot { result ≡ slot_of key blocks.now }
    ensures within { result < length blocks.now }
{
    blocks[1..].partition_point(|block| block.fence <= key)
}

/// Which block has the greatest key below this one, where there is one.
fn slot_under(blocks: &[Block], key: u64) -> usize
    requires { Chained blocks.now }
    ensures slot { result ≡ slot_below key blocks.now }
    ensures within { result < length blocks.now }
{
    blocks[1..].partition_point(|block| block.fence < key)
}

/// What stands at a key.
pub(crate) fn get(blocks: &[Block], key: u64) -> Found
    requires { Chained blocks.now }
    ensures { result ≡ found_at key (flat blocks.now) }
{
    rows::get(&blocks[slot(blocks, key)].rows, key)
}

/// The greatest record below a key.
pub(crate) fn anchor_below(blocks: &[Block], key: u64) -> Anchor
    requires { Chained blocks.now }
    ensures { result ≡ lower_anchor key (flat blocks.now) }
{
    rows::anchor_below(&blocks[slot_under(blocks, key)].rows, key)
}
