// The line of the counts.

ghost use Rattle.std.specs.Prelude.{◌≡◌, IfOk};
ghost use Rattle.serde_json.specs.View.{view};
ghost use Rattle.report_text.specs.Counts.{summary as summary_value};

use crate::Memory;
use serde_json::{Value, json};
use session_books::counts::Counts;
use std::alloc::Global;

// The object of the counts.
pub fn summary(alloc: Global, counts: Counts) -> Result<Value, Memory>
    ensures { IfOk result (λ v. view v ≡ summary_value counts) }
{
    json!(in alloc; {"aborted": counts.aborted, "acknowledged": counts.acknowledged, "unsettled": counts.unsettled})
}
