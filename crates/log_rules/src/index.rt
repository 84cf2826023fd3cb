// What is known of the records of a log so far.

use crate::Memory;
use crate::listers::Listers;
use crate::writes::Writes;
use clv_base::logs::LogRecord;
use log_analysis::{LogFacts, TxSet};
use std::alloc::Global;

// The last RESTART and its LSN; what the log says of each transaction; the writes that stand, and whose they are; who lists whom; and who bars a
// RESTART: the transactions with a write that stands, which are neither committed nor held. Held is one that is prepared for
// another home, has no ABORT and lists nobody with an ABORT.
#[derive(Drop)]
pub struct Index<'a> {
    pub shard: u32,
    pub last: Option<(u32, u64)>,
    pub restart_at: usize,
    pub facts: LogFacts,
    pub writes: Writes<'a>,
    pub listers: Listers,
    pub barring: TxSet,
}

impl<'a> Index<'a> {
    ghost use Rattle.std.specs.Prelude.{◌≡◌, ℕ, None, Some, [], IfOk};
    ghost use Rattle.clv_base.specs.declared.names.TxId.{TxId as Tx};
    ghost use Rattle.log_analysis.specs.Facts.{Knows};
    ghost use Rattle.log_rules.specs.Writes.{write_at, top_at, adds_at, value_at, shares_at, newest_by};
    ghost use Rattle.log_rules.specs.Listers.{last_of};

    // Of no record, with room for the writes of this log.
    pub fn new(alloc: Global, shard: u32, records: &'a [LogRecord]) -> Result<Self, Memory>
        ensures shard { IfOk result (λ x. x.shard ≡ shard) }
        ensures last { IfOk result (λ x. x.last ≡ None) }
        ensures restart_at { IfOk result (λ x. x.restart_at ≡ 0) }
        ensures facts { IfOk result (λ x. Knows x.facts []) }
        ensures records { IfOk result (λ x. x.writes.records.now ≡ records.now) }
        ensures rows { IfOk result (λ x. (k : ℕ) → write_at x.writes (Some k) ≡ None) }
        ensures tops { IfOk result (λ x. (k : ℕ) → (top_at x.writes k ≡ None) × (adds_at x.writes k ≡ 0) × (value_at x.writes k ≡ None) × (shares_at x.writes k ≡ [])) }
        ensures newest { IfOk result (λ x. (t : Tx) → newest_by x.writes t ≡ None) }
        ensures all { IfOk result (λ x. x.listers.all.items ≡ []) }
        ensures listers { IfOk result (λ x. (t : Tx) → last_of x.listers t ≡ None) }
        ensures barring { IfOk result (λ x. x.barring ≡ []) }
    {
        Ok(Index {
            shard,
            last: None,
            restart_at: 0,
            facts: LogFacts::new(alloc),
            writes: Writes::new(alloc, records)?,
            listers: Listers::new(alloc),
            barring: TxSet::new(alloc),
        })
    }

    // What the log says of each transaction; all else goes.
    pub fn into_facts(self) -> LogFacts
        ensures { result ≡ self.entry.facts }
    {
        let Index {
            shard: _,
            last: _,
            restart_at: _,
            facts,
            writes: _,
            listers: _,
            barring: _,
        } = self;
        facts
    }
}
