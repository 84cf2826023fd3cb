// Which record fits behind those of an index.

ghost use Rattle.std.specs.Prelude.{◌≡◌};
ghost use Rattle.clv_base.specs.Orders.{nat_in};
ghost use Rattle.log_rules.specs.Rules.{is_above as is_above_last, is_last_run as is_of_last_run, is_before as comes_before, is_after as comes_after, is_own_or_one_of, is_below as lies_below, undoes_setting, undoes_adding};

use crate::Memory;
use crate::index::Index;
use crate::shares::Share;
use crate::writes::Step;
use clv_base::changes::{Change, is_number};
use clv_base::logs::LogRecord;
use clv_base::names::TxId;
use clv_base::values::{Value, are_same};
use log_analysis::TxSet;
use log_analysis::facts::TxFacts;
use log_analysis::lists::{home_at, listed_at, parts_at};
use std::alloc::Global;

fn is_above(run: u32, epoch: u64, last: Option<(u32, u64)>) -> bool
    ensures { result ≡ is_above_last run epoch last }
{
    match last {
        None => true,
        Some((r, e)) => r < run || (r == run && e < epoch),
    }
}

fn is_last_run(run: u32, last: Option<(u32, u64)>) -> bool
    ensures { result ≡ is_of_last_run run last }
{
    match last {
        None => false,
        Some((r, _)) => run == r,
    }
}

// Whether the LSN is there and below the other one, and whether it is there and above.
fn is_before(at: usize, lsn: Option<usize>) -> bool
    ensures { result ≡ comes_before at lsn }
{
    match lsn {
        None => false,
        Some(n) => n < at,
    }
}

fn is_after(at: usize, lsn: Option<u64>) -> bool
    ensures { result ≡ comes_after at lsn }
{
    match lsn {
        None => false,
        Some(n) => (at as u64) < n,
    }
}

// Whether an LSN that may be none is below this one.
fn is_below(at: Option<u64>, lsn: u64) -> bool
    ensures { result ≡ lies_below at lsn }
{
    match at {
        None => true,
        Some(n) => n < lsn,
    }
}

// Whether this change is undone by a CLR with that value, and by an UNADD of that number.
fn is_undone_by_value(change: &Change, after: &Option<Value>) -> bool
    ensures { result ≡ undoes_setting change.now after.now }
{
    match change {
        Change::Sets(before, _) => are_same(before, after),
        Change::Adds(_) => false,
    }
}

fn is_undone_by_number(change: &Change, by: u64) -> bool
    ensures { result ≡ undoes_adding change.now by }
{
    match change {
        Change::Sets(_, _) => false,
        Change::Adds(added) => *added == by,
    }
}

fn is_among(shard: u32, parts: &[u32]) -> bool
    ensures { result ≡ nat_in shard parts.now }
{
    parts.contains(&shard)
}

// Whether the writer is the transaction itself or one that it lists.
fn is_own_or_listed(tx: TxId, listed: &TxSet, writer: TxId) -> bool
    ensures { result ≡ is_own_or_one_of tx listed.now writer }
{
    writer == tx || listed.contains(writer)
}

impl<'a> Index<'a> {
    ghost use Rattle.std.specs.Prelude.{◌≡◌, ◌==◌, ◌||◌, IfOk};
    ghost use Rattle.std.specs.List.{list_all};
    ghost use Rattle.clv_base.specs.Orders.{tx_in};
    ghost use Rattle.log_rules.specs.Rules.{has_commit, may_be_undone, may_be_covered, sets_over, adds_over, may_be_listed, has_no_fate, may_write, is_met, is_clear_under, all_clear, home_allows, restart_fits, update_fits, add_fits, prepare_fits_by, prepare_fits, commit_fits, abort_fits, clr_fits, unadd_fits, end_fits, fits};

    fn is_committed(&self, tx: TxId) -> bool
        ensures { result ≡ has_commit self.now tx }
    {
        self.facts.get(tx).commit.is_some()
    }

    // Whether it has no PREPARE, COMMIT or ABORT.
    fn is_open(&self, tx: TxId) -> bool
        ensures { result ≡ has_no_fate self.now tx }
    {
        let facts = self.facts.get(tx);
        facts.prepare.is_none() && facts.commit.is_none() && !facts.is_aborted
    }

    // Whether what it wrote may be undone: it has an ABORT, or neither a PREPARE nor a COMMIT.
    fn may_undo(&self, tx: TxId) -> bool
        ensures { result ≡ may_be_undone self.now tx }
    {
        let facts = self.facts.get(tx);
        facts.is_aborted || (facts.prepare.is_none() && facts.commit.is_none())
    }

    // Whether others may write over what this one wrote: it has a PREPARE or COMMIT and no ABORT.
    fn may_cover(&self, tx: TxId, writer: TxId) -> bool
        ensures { result ≡ may_be_covered self.now tx writer }
    {
        let facts = self.facts.get(writer);
        tx == writer || ((facts.prepare.is_some() || facts.commit.is_some()) && !facts.is_aborted)
    }

    // So of all of these. Those with a COMMIT needn't be asked.
    fn may_cover_all(&self, tx: TxId, shares: &[Share]) -> bool
        ensures { result ≡ list_all (λ s. may_be_covered self.now tx s.tx) shares.now }
    {
        shares.iter().all(|share| self.may_cover(tx, share.tx))
    }

    // And of all of these who set the key's value.
    fn may_cover_sets(&self, tx: TxId, shares: &[Share]) -> bool
        ensures { result ≡ list_all (λ s. (s.sets == 0) || may_be_covered self.now tx s.tx) shares.now }
    {
        shares
            .iter()
            .all(|share| share.sets == 0 || self.may_cover(tx, share.tx))
    }

    // Whether the transaction may set the value over what stands at the key.
    fn sets_over(&self, tx: TxId, key: u64, before: &Option<Value>) -> bool
        ensures { result ≡ sets_over self.now tx key before.now }
    {
        match self.writes.tops.get(&key) {
            Some(top) => {
                are_same(before, &top.value.value()) && self.may_cover_all(tx, top.crowd.as_slice())
            }
            None => before.is_none(),
        }
    }

    // And add to it.
    fn adds_over(&self, tx: TxId, key: u64) -> bool
        ensures { result ≡ adds_over self.now tx key }
    {
        match self.writes.tops.get(&key) {
            Some(top) => {
                is_number(&top.value.value()) && self.may_cover_sets(tx, top.crowd.as_slice())
            }
            None => false,
        }
    }

    fn may_list(&self, tx: TxId, listed: TxId) -> bool
        ensures { result ≡ may_be_listed self.now tx listed }
    {
        let facts = self.facts.get(listed);
        listed != tx && facts.prepare.is_some() && facts.commit.is_none() && !facts.is_aborted
    }

    fn may_list_all(&self, tx: TxId, listed: &[TxId]) -> bool
        ensures { result ≡ list_all (may_be_listed self.now tx) listed.now }
    {
        listed.iter().all(|p| self.may_list(tx, *p))
    }

    fn has_committed(&self, listed: &[TxId]) -> bool
        ensures { result ≡ list_all (has_commit self.now) listed.now }
    {
        listed.iter().all(|p| self.is_committed(*p))
    }

    // Whether one who wrote at the key of a write of the transaction is the transaction, is listed, or is asked nothing, as two ADDs may
    // stand beside each other.
    fn is_met(&self, tx: TxId, listed: &TxSet, is_setting: bool, share: &Share) -> bool
        ensures { result ≡ is_met tx listed.now is_setting share.now }
    {
        is_own_or_listed(tx, listed, share.tx) || (!is_setting && share.sets == 0)
    }

    // So of all who wrote there and have no COMMIT. While the transaction is open, nobody has written over it, so their writes are below.
    fn is_clear_under(&self, tx: TxId, listed: &TxSet, step: &Step) -> bool
        ensures { result ≡ is_clear_under self.now tx listed.now step.now }
    {
        self.writes
            .shares(step.key)
            .iter()
            .all(|share| self.is_met(tx, listed, step.is_setting, share))
    }

    // Whether the writes of others below those of the transaction, which is open, are committed or listed. All its writes stand below
    // this LSN, and so no walk has more steps.
    fn covers_only(&self, lsn: usize, tx: TxId, listed: &TxSet) -> bool
        ensures { result ≡ all_clear self.now tx listed.now lsn }
    {
        let mut at = self.writes.newest_of(tx);
        for _step in 0..lsn {
            let Some(w) = self.writes.step(at) else {
                return true;
            };
            if !self.is_clear_under(tx, listed, &w) {
                return false;
            }
            at = w.earlier;
        }
        true
    }

    fn takes_restart(&self, run: u32, epoch: u64) -> bool
        ensures { result ≡ restart_fits self.now run epoch }
    {
        is_above(run, epoch, self.last) && self.barring.is_empty()
    }

    // Whether the transaction may write: its run is the last one, it is open, and it wrote nothing before the last RESTART.
    fn may_write(&self, tx: TxId) -> bool
        ensures { result ≡ may_write self.now tx }
    {
        is_last_run(tx.run, self.last)
            && self.is_open(tx)
            && !is_before(self.restart_at, self.facts.get(tx).first_update)
    }

    fn takes_update(
        &self,
        tx: TxId,
        key: u64,
        before: &Option<Value>,
        after: &Option<Value>,
    ) -> bool
        ensures { result ≡ update_fits self.now tx key before.now after.now }
    {
        self.may_write(tx)
            && (before.is_some() || after.is_some())
            && self.sets_over(tx, key, before)
    }

    fn takes_add(&self, tx: TxId, key: u64) -> bool
        ensures { result ≡ add_fits self.now tx key }
    {
        self.may_write(tx) && self.adds_over(tx, key)
    }

    fn allows_prepare(&self, lsn: usize, tx: TxId, predecessors: &[TxId], listed: &TxSet) -> bool
        ensures { result ≡ prepare_fits_by self.now lsn tx predecessors.now listed.now }
    {
        self.last.is_some()
            && is_after(self.restart_at, self.writes.newest_of(tx))
            && self.is_open(tx)
            && self.may_list_all(tx, predecessors)
            && self.covers_only(lsn, tx, listed)
    }

    fn takes_prepare(
        &self,
        alloc: Global,
        lsn: usize,
        tx: TxId,
        predecessors: &[TxId],
    ) -> Result<bool, Memory>
        ensures { IfOk result (λ b. b ≡ prepare_fits self.now lsn tx predecessors.now) }
    {
        let listed = TxSet::of(alloc, predecessors)?;
        Ok(self.allows_prepare(lsn, tx, predecessors, &listed))
    }

    // What the PREPARE of a transaction, if it has one, asks of its COMMIT.
    fn home_lets(&self, records: &[LogRecord], facts: TxFacts, tx: TxId, parts: &[u32]) -> bool
        ensures { result ≡ home_allows self.now records.now facts tx parts.now }
    {
        match home_at(records, facts.prepare) {
            None => is_last_run(tx.run, self.last),
            Some(home) => home == self.shard || parts.is_empty(),
        }
    }

    fn takes_commit(
        &self,
        alloc: Global,
        records: &[LogRecord],
        lsn: usize,
        tx: TxId,
        parts: &[u32],
    ) -> bool
        ensures { result ≡ commit_fits self.now records.now lsn tx parts.now }
    {
        let facts = self.facts.get(tx);
        let nobody = TxSet::new(alloc);
        self.last.is_some()
            && facts.commit.is_none()
            && !facts.is_aborted
            && !is_among(self.shard, parts)
            && self.has_committed(listed_at(records, facts.prepare))
            && (facts.prepare.is_some() || self.covers_only(lsn, tx, &nobody))
            && self.home_lets(records, facts, tx, parts)
            && (facts.standing > 0 || !parts.is_empty())
    }

    fn takes_abort(&self, tx: TxId) -> bool
        ensures { result ≡ abort_fits self.now tx }
    {
        let facts = self.facts.get(tx);
        self.last.is_some() && facts.standing > 0 && facts.commit.is_none() && !facts.is_aborted
    }

    fn takes_clr(&self, tx: TxId, undo_next: Option<u64>, key: u64, after: &Option<Value>) -> bool
        ensures { result ≡ clr_fits self.now tx undo_next key after.now }
    {
        let Some(w) = self.writes.at(self.writes.newest_of(tx)) else {
            return false;
        };
        self.last.is_some()
            && self.may_undo(tx)
            && w.key == key
            && is_undone_by_value(&w.change, after)
            && self.writes.top(key) == Some(w.lsn)
            && self.writes.adds(key) == 0
            && undo_next == w.earlier
    }

    fn takes_unadd(&self, tx: TxId, undo_next: Option<u64>, key: u64, by: u64) -> bool
        ensures { result ≡ unadd_fits self.now tx undo_next key by }
    {
        let Some(w) = self.writes.at(self.writes.newest_of(tx)) else {
            return false;
        };
        self.last.is_some()
            && self.may_undo(tx)
            && w.key == key
            && is_undone_by_number(&w.change, by)
            && is_below(self.writes.top(key), w.lsn)
            && undo_next == w.earlier
    }

    fn takes_end(&self, records: &[LogRecord], tx: TxId) -> bool
        ensures { result ≡ end_fits self.now records.now tx }
    {
        let facts = self.facts.get(tx);
        self.last.is_some() && !facts.is_ended && !parts_at(records, facts.commit).is_empty()
    }

    // Whether the record fits behind those of the index, which are the records below this LSN.
    pub fn takes(
        &self,
        alloc: Global,
        records: &[LogRecord],
        lsn: usize,
        r: &LogRecord,
    ) -> Result<bool, Memory>
        ensures { IfOk result (λ b. b ≡ fits self.now records.now lsn r.now) }
    {
        Ok(match r {
            LogRecord::Restart { run, epoch } => self.takes_restart(*run, *epoch),
            LogRecord::Update {
                tx,
                key,
                before,
                after,
            } => self.takes_update(*tx, *key, before, after),
            LogRecord::Clr {
                tx,
                undo_next,
                key,
                after,
            } => self.takes_clr(*tx, *undo_next, *key, after),
            LogRecord::Prepare {
                tx,
                predecessors,
                ..
            } => self.takes_prepare(alloc, lsn, *tx, predecessors.as_slice())?,
            LogRecord::Commit { tx, parts } => {
                self.takes_commit(alloc, records, lsn, *tx, parts.as_slice())
            }
            LogRecord::Abort { tx } => self.takes_abort(*tx),
            LogRecord::Add { tx, key, .. } => self.takes_add(*tx, *key),
            LogRecord::Unadd {
                tx,
                undo_next,
                key,
                by,
            } => self.takes_unadd(*tx, *undo_next, *key, *by),
            LogRecord::End { tx } => self.takes_end(records, *tx),
            LogRecord::Forgotten | LogRecord::Check { .. } => false,
        })
    }
}
