// The COMMITs that are coordinated again.

ghost use Rattle.std.specs.Prelude.{◌≡◌, IfOk, OnOk};
ghost use Rattle.clv_base.specs.Restarts.{unended_in};
ghost use Rattle.log_analysis.specs.Facts.{Knows};
ghost use Rattle.log_analysis.specs.Unended.{with_commit, commits_by};

use crate::{LogFacts, Memory};
use clv_base::logs::LogRecord;
use clv_base::names::TxId;
use clv_base::parts::ShardList;
use std::alloc::Global;
use std::collections::BTreeMap;

// A COMMIT with parts joins the table, if its transaction has no END.
fn put_commit(
    rows: &mut BTreeMap<TxId, ShardList>,
    facts: &LogFacts,
    r: &LogRecord,
) -> Result<(), Memory>
    ensures { OnOk result (rows.new.entries ≡ with_commit facts.now r.now rows.old.entries) }
{
    if let LogRecord::Commit { tx, parts } = r {
        if !parts.as_slice().is_empty() && !facts.get(*tx).is_ended {
            rows.insert(*tx, parts.clone()?)?;
        }
    }
    Ok(())
}

// From the log's end, since a transaction's first COMMIT counts.
fn commits_in(
    alloc: Global,
    facts: &LogFacts,
    records: &[LogRecord],
) -> Result<BTreeMap<TxId, ShardList>, Memory>
    ensures { IfOk result (λ rows. rows.entries ≡ commits_by facts.now records.now) }
{
    let mut rows = BTreeMap::new(alloc);
    for back in 0..records.len() {
        put_commit(&mut rows, facts, &records[records.len() - 1 - back])?;
    }
    Ok(rows)
}

// The COMMITs with parts and no END, by rising transaction.
#[tactic(auto, using(crate::proofs::Ended::unended_are))]
pub fn unended(
    alloc: Global,
    facts: &LogFacts,
    records: &[LogRecord],
) -> Result<Vec<(TxId, ShardList)>, Memory>
    requires { Knows facts.now records.now }
    ensures { IfOk result (λ rows. rows.items ≡ unended_in records.now records.now) }
{
    commits_in(alloc, facts, records)?
        .into_iter()
        .collect(alloc)
}
