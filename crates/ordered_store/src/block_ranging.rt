//! The records between two keys, and all live pairs.
ghost use Rattle.std.specs.Prelude.{◌≡◌, ◌++◌, map, Some, IfOk, OnOk};
ghost use Rattle.clv_base.specs.Needs.{found_by, live_pairs, records_between};
ghost use Rattle.ordered_store.specs.Blocks.{Chained, flat};

use crate::block::Block;
use crate::block_finding::slot;
use crate::rows;
use clv_base::modes::Found;
use clv_base::values::Value;
use std::alloc::{AllocError, Global};

/// The records from a key to another, both in.
pub(crate) fn between(
    alloc: Global,
    blocks: &[Block],
    low: u64,
    high: u64,
) -> Result<Vec<(u64, Found)>, AllocError>
    requires { Chained blocks.now }
    ensures { IfOk result (λ found. found.items ≡ map (λ r. (r.0, found_by (Some r.1))) (records_between low high (flat blocks.now))) }
{
    let mut found = Vec::new(alloc);
    let from = slot(blocks, low);
    for block in &blocks[from..] {
        if block.fence > high {
            break;
        }
        let mut part = rows::between(alloc, &block.rows, low, high)?;
        found.append(&mut part)?;
    }
    Ok(found)
}

/// The live pairs go behind those of a list.
pub(crate) fn add_live(pairs: &mut Vec<(u64, Value)>, blocks: &[Block]) -> Result<(), AllocError>
    ensures { OnOk result (pairs.new.items ≡ pairs.old.items ++ live_pairs (flat blocks.now)) }
{
    for block in blocks {
        rows::add_live(pairs, &block.rows)?;
    }
    Ok(())
}
