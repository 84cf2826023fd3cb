//! The chain of records that are there.
ghost use Rattle.std.specs.Prelude.{◌≡◌, ◌≤◌, map, IfOk};
ghost use Rattle.log_buffer.specs.Chained.{IsChainOf};

use crate::chain::Chain;
use crate::measured::Measured;
use std::alloc::{AllocError, Global};

// Places for so many records and for an eighth more, so that the few that follow at once don't double them.
fn places_for(count: usize) -> usize
    ensures { count ≤ result }
{
    count.saturating_add(count / 8 + 64)
}

/// The chain of records. Writers get their room as they come, since mostly there are far fewer of them than records.
pub(crate) fn chain_of<R: Measured>(alloc: Global, records: &[R]) -> Result<Chain, AllocError>
    ensures { IfOk result (λ c. IsChainOf c (map R.link records.now)) }
{
    let mut chain = Chain::with_places(alloc, places_for(records.len()))?;
    for record in records {
        chain.add(record.link())?;
    }
    Ok(chain)
}
