//! Rows kept for the blocks to come.
ghost use Rattle.std.specs.Prelude.{◌≡◌, ◌≤◌, ◌<◌, ◌+◌, ◌/◌, ◌⊎◌, OnOk, vec_len, vec_capacity};
ghost use Rattle.ordered_store.specs.Blocks.{Empties, Sized, room_of};

use crate::block::{Block, MOST};
use crate::rows::Row;
use std::alloc::{AllocError, Global};

/// How many cuts so many new keys can make in so many blocks, and one more.
fn cuts_of(count: usize, blocks: usize) -> usize
    ensures { (count ≤ result) ⊎ (count / 32 + blocks + 1 ≤ result) }
{
    count.min((count / 32).saturating_add(blocks).saturating_add(1))
}

/// Keeps empty rows, and a place for each, for so many new keys.
pub(crate) fn make_room(
    alloc: Global,
    blocks: &mut Vec<Block>,
    spares: &mut Vec<Vec<Row>>,
    count: usize,
) -> Result<(), AllocError>
    requires empties { Empties spares.old.items }
    requires sized { Sized blocks.old.items }
    requires slots { vec_len blocks.old + vec_len spares.old ≤ vec_capacity blocks.old }
    ensures ok { OnOk result (count ≤ room_of blocks.new.items (vec_len spares.new)) }
    ensures room { vec_len spares.old ≤ vec_len spares.new }
    ensures blocks { blocks.new.items ≡ blocks.old.items }
    ensures empties { Empties spares.new.items }
    ensures slots { vec_len blocks.new + vec_len spares.new ≤ vec_capacity blocks.new }
{
    let cuts = cuts_of(count, blocks.len());
    blocks.reserve(cuts)?;
    while spares.len() < cuts {
        let rows = Vec::with_capacity(alloc, MOST + 1)?;
        spares.push(rows)?;
    }
    Ok(())
}
