// The line of a workload.

ghost use Rattle.std.specs.Prelude.{◌≡◌, IfOk};
ghost use Rattle.serde_json.specs.View.{view};
ghost use Rattle.report_text.specs.Loads.{load_object, load_text as text_of_load};

use crate::Memory;
use crate::lines::add_line;
use serde_json::{Value, json};
use std::alloc::Global;

fn object(alloc: Global, accounts: u64, acknowledged: u64, sum: u64) -> Result<Value, Memory>
    ensures { IfOk result (λ v. view v ≡ load_object accounts acknowledged sum) }
{
    json!(in alloc; {"accounts": accounts, "acknowledged": acknowledged, "sum": sum})
}

/// The line of a workload: so many accounts, transactions acknowledged, and the sum of what the accounts hold, as bytes.
pub fn load_text(
    alloc: Global,
    accounts: u64,
    acknowledged: u64,
    sum: u64,
) -> Result<Vec<u8>, Memory>
    ensures { IfOk result (λ text. text.items ≡ text_of_load accounts acknowledged sum) }
{
    let value = object(alloc, accounts, acknowledged, sum)?;
    let mut text = Vec::new(alloc);
    add_line(alloc, &mut text, value)?;
    Ok(text)
}
