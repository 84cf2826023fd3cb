// The pairs of a map.

ghost use Rattle.std.specs.Prelude.{◌≡◌, IfOk};
ghost use Rattle.report_text.specs.Report.{pairs_text as text_of_pairs};

use crate::Memory;
use crate::lines::{add_line, pair};
use clv_base::values::Value;
use std::alloc::Global;

/// A line `[K,V]` for each pair of a map, which come by rising keys, as bytes. Takes time linear in the map.
pub fn pairs_text(alloc: Global, pairs: &[(u64, Value)]) -> Result<Vec<u8>, Memory>
    ensures { IfOk result (λ text. text.items ≡ text_of_pairs pairs.now) }
{
    let mut text = Vec::new(alloc);
    for entry in pairs {
        let value = pair(alloc, entry.0, &entry.1)?;
        add_line(alloc, &mut text, value)?;
    }
    Ok(text)
}
