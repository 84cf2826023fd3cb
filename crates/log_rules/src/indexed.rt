// A log with an index.

ghost use Rattle.std.specs.Prelude.{◌≡◌, ℕ, [], length, is_some, unwrap_or};
ghost use Rattle.std.specs.List.{list_all};
ghost use Rattle.clv_base.specs.Logs.{committed_in, ended_in, prepare_of, commit_parts, commit_lsn};
ghost use Rattle.clv_base.specs.LogRules.{home_is, is_undone_in, listed_in, part_agrees};
ghost use Rattle.log_analysis.specs.Facts.{Knows, facts_of};
ghost use Rattle.log_rules.specs.Agreement.{is_undone_by};

use clv_base::logs::LogRecord;
use clv_base::names::TxId;
use log_analysis::LogFacts;
use log_analysis::facts::TxFacts;
use log_analysis::lists::{home_at, listed_at, parts_at};
use std::marker::Model;

// Whether nothing stands, and nothing but writes and what compensates them is there.
fn has_undone(says: TxFacts) -> bool
    ensures { result ≡ is_undone_by says }
{
    says.standing == 0
        && says.prepare.is_none()
        && says.commit.is_none()
        && !says.is_aborted
        && !says.is_ended
}

/// A log with what it says of each transaction, seen as the log.
#[derive(Drop)]
pub struct IndexedLog<'a> {
    records: &'a [LogRecord],
    facts: &'a LogFacts,
}

impl<'a> Model for IndexedLog<'a> {
    ghost use Rattle.std.specs.Prelude.{List};
    ghost use Rattle.clv_base.specs.declared.logs.LogRecord.{LogRecord as Record};
    ghost use Rattle.log_analysis.specs.Facts.{Knows};

    ghost Value = { List Record };

    ghost view = { λ i. i.records.now };

    ghost invariant = { λ i. Knows i.facts.now i.records.now };
}

impl<'a> IndexedLog<'a> {
    /// The log of these records, of which this is known.
    pub fn new(records: &'a [LogRecord], facts: &'a LogFacts) -> Self
        requires { Knows facts.now records.now }
        ensures { result ≡ records.now }
    {
        IndexedLog { records, facts }
    }

    fn says(&self, tx: TxId) -> TxFacts
        ensures { result ≡ facts_of self.now tx }
    {
        self.facts.get(tx)
    }

    /// Whether the log has a COMMIT of the transaction.
    pub fn is_committed(&self, tx: TxId) -> bool
        ensures { result ≡ committed_in self.now tx }
    {
        self.says(tx).commit.is_some()
    }

    /// Where the transaction's COMMIT stands, the log's end where there is none.
    pub fn commit_or_end(&self, tx: TxId) -> usize
        ensures { result ≡ unwrap_or (commit_lsn self.now tx) (length self.now) }
    {
        self.says(tx).commit.unwrap_or(self.records.len())
    }

    /// Whether the log has an END of the transaction.
    pub fn is_ended(&self, tx: TxId) -> bool
        ensures { result ≡ ended_in self.now tx }
    {
        self.says(tx).is_ended
    }

    /// Whether the log has of the transaction compensated writes and what compensates them, and nothing else.
    pub fn is_undone(&self, tx: TxId) -> bool
        ensures { result ≡ is_undone_in self.now tx }
    {
        has_undone(self.says(tx))
    }

    /// The shards that the transaction's COMMIT names, none where there is no COMMIT.
    pub fn parts(&self, tx: TxId) -> &[u32]
        ensures { result.now ≡ unwrap_or (commit_parts self.now tx) [] }
    {
        parts_at(self.records, self.says(tx).commit)
    }

    fn listed(&self, tx: TxId) -> &[TxId]
        ensures { result.now ≡ listed_in self.now tx }
    {
        listed_at(self.records, self.says(tx).prepare)
    }

    fn is_prepared(&self, tx: TxId) -> bool
        ensures { result ≡ is_some (prepare_of self.now tx) }
    {
        self.says(tx).prepare.is_some()
    }

    /// Whether the transaction's PREPARE, if there is one, names this home.
    pub fn allows_home(&self, tx: TxId, home: usize) -> bool
        ensures { result ≡ home_is home (prepare_of self.now tx) }
    {
        match home_at(self.records, self.says(tx).prepare) {
            None => true,
            Some(named) => named as usize == home,
        }
    }

    // Whether each predecessor that the transaction's PREPARE lists is committed here.
    fn has_predecessors(&self, tx: TxId) -> bool
        ensures { result ≡ list_all (committed_in self.now) (listed_in self.now tx) }
    {
        self.listed(tx).iter().all(|p| self.is_committed(*p))
    }

    /// Whether this may be the log of a part of the transaction's commit at this home.
    pub fn agrees(&self, tx: TxId, home: usize) -> bool
        ensures { result ≡ part_agrees tx home self.now }
    {
        self.is_prepared(tx)
            && self.allows_home(tx, home)
            && !self.says(tx).is_aborted
            && self.has_predecessors(tx)
    }
}
