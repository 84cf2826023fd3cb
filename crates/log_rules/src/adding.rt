// An index grows by a record.

use crate::Memory;
use crate::index::Index;
use clv_base::changes::Change;
use clv_base::logs::LogRecord;
use clv_base::names::TxId;
use clv_base::values::copy_of;
use std::alloc::Global;

impl<'a> Index<'a> {
    ghost use Rattle.std.specs.Prelude.{◌≡◌, OnOk};
    ghost use Rattle.clv_base.specs.declared.names.TxId.{TxId as Tx};
    ghost use Rattle.log_rules.specs.Adding.{bars_after_abort, Adds, AddsRestart, AddsWrite, AddsUndo, AddsPrepare, AddsCommit, AddsAbort, AddsEnd, Places, BarsOne, BarsAll};

    fn add_restart(&mut self, lsn: usize, run: u32, epoch: u64)
        ensures { AddsRestart self.old self.new lsn run epoch }
    {
        self.last = Some((run, epoch));
        self.restart_at = lsn;
    }

    // An UPDATE or ADD. Its transaction is neither committed nor prepared.
    fn add_write(
        &mut self,
        alloc: Global,
        lsn: usize,
        tx: TxId,
        key: u64,
        change: &Change,
    ) -> Result<(), Memory>
        ensures { OnOk result (AddsWrite self.old self.new lsn tx key change.now) }
    {
        self.writes.push(alloc, lsn as u64, tx, key, change)?;
        self.barring.insert(tx)
    }

    // A CLR or UNADD of the transaction's newest write.
    fn add_undo(&mut self, tx: TxId) -> Result<(), Memory>
        ensures { OnOk result (AddsUndo self.old self.new tx) }
    {
        self.writes.pop(tx)?;
        if self.writes.newest_of(tx).is_none() {
            self.barring.remove(tx);
        }
        Ok(())
    }

    // Nobody whom it lists has an ABORT, and so it is held where its home is another shard.
    fn add_prepare(&mut self, tx: TxId, home: u32, listed: &[TxId]) -> Result<(), Memory>
        ensures { OnOk result (AddsPrepare self.old self.new tx home listed.now) }
    {
        self.listers.add_all(tx, listed)?;
        if home != self.shard {
            self.barring.remove(tx);
        }
        Ok(())
    }

    fn add_commit(&mut self, lsn: usize, tx: TxId)
        ensures { AddsCommit self.old self.new lsn tx }
    {
        self.writes.settle(lsn, tx);
        self.barring.remove(tx);
    }

    fn bars_now(&self, tx: TxId) -> bool
        ensures { result ≡ bars_after_abort self.now tx }
    {
        self.writes.newest_of(tx).is_some() && self.facts.get(tx).commit.is_none()
    }

    fn bar(&mut self, tx: TxId) -> Result<(), Memory>
        ensures { OnOk result (BarsOne self.old self.new tx) }
    {
        if self.bars_now(tx) {
            self.barring.insert(tx)?;
        }
        Ok(())
    }

    // Of the listers, those with a write that stands and no COMMIT are no longer held.
    fn bar_all(&mut self, txs: &[TxId]) -> Result<(), Memory>
        ensures { OnOk result (BarsAll self.old self.new txs.now) }
    {
        for tx in txs {
            self.bar(*tx)?;
        }
        Ok(())
    }

    fn add_abort(&mut self, alloc: Global, tx: TxId) -> Result<(), Memory>
        ensures { OnOk result (AddsAbort self.old self.new tx) }
    {
        let listers = self.listers.of(alloc, tx)?;
        self.bar_all(listers.as_slice())?;
        self.barring.insert(tx)
    }

    fn place(&mut self, alloc: Global, lsn: usize, r: &LogRecord) -> Result<(), Memory>
        ensures { OnOk result (Places self.old self.new lsn r.now) }
    {
        match r {
            LogRecord::Restart { run, epoch } => self.add_restart(lsn, *run, *epoch),
            LogRecord::Update {
                tx,
                key,
                before,
                after,
            } => {
                let change = Change::Sets(copy_of(before), copy_of(after));
                self.add_write(alloc, lsn, *tx, *key, &change)?
            }
            LogRecord::Add { tx, key, by } => {
                self.add_write(alloc, lsn, *tx, *key, &Change::Adds(*by))?
            }
            LogRecord::Clr { tx, .. } | LogRecord::Unadd { tx, .. } => self.add_undo(*tx)?,
            LogRecord::Prepare {
                tx,
                home,
                predecessors,
            } => self.add_prepare(*tx, *home, predecessors.as_slice())?,
            LogRecord::Commit { tx, .. } => self.add_commit(lsn, *tx),
            LogRecord::Abort { tx } => self.add_abort(alloc, *tx)?,
            LogRecord::End { .. } | LogRecord::Forgotten | LogRecord::Check { .. } => {}
        }
        Ok(())
    }

    // The record at this LSN, which fits, goes behind those of the index.
    pub fn add(&mut self, alloc: Global, lsn: usize, r: &LogRecord) -> Result<(), Memory>
        ensures { OnOk result (Adds self.old self.new lsn r.now) }
    {
        self.place(alloc, lsn, r)?;
        self.facts.add(lsn, r)
    }
}
