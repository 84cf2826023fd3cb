// Whose UPDATEs and ADDs stand.

ghost use Rattle.std.specs.Prelude.{◌≡◌, [], IfOk, OnOk};
ghost use Rattle.clv_base.specs.Logs.{standing, writers as writers_in};
ghost use Rattle.log_analysis.specs.Facts.{Knows};
ghost use Rattle.log_analysis.specs.Writers.{count_in, with_writer, writers_by};

use crate::{LogFacts, Memory, TxSet};
use clv_base::logs::LogRecord;
use std::alloc::Global;

// The writer joins the set if it has an UPDATE or ADD that stands.
fn put_writer(set: &mut TxSet, facts: &LogFacts, r: &LogRecord) -> Result<(), Memory>
    ensures { OnOk result (set.new ≡ with_writer (count_in facts.now) r.now set.old) }
{
    if let LogRecord::Update { tx, .. } | LogRecord::Add { tx, .. } = r {
        if facts.get(*tx).standing > 0 {
            set.insert(*tx)?;
        }
    }
    Ok(())
}

fn writers_of(alloc: Global, facts: &LogFacts, records: &[LogRecord]) -> Result<TxSet, Memory>
    ensures { IfOk result (λ set. set ≡ writers_by (count_in facts.now) records.now []) }
{
    let mut set = TxSet::new(alloc);
    for r in records {
        put_writer(&mut set, facts, r)?;
    }
    Ok(set)
}

// The transactions with an UPDATE or ADD that stands.
pub fn writers(alloc: Global, facts: &LogFacts, records: &[LogRecord]) -> Result<TxSet, Memory>
    requires { Knows facts.now records.now }
    ensures { IfOk result (λ set. set ≡ writers_in (standing records.now)) }
{
    writers_of(alloc, facts, records)
}
