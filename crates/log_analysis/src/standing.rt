// Which UPDATEs and ADDs stand.

ghost use Rattle.std.specs.Prelude.{◌≡◌, map, IfOk};
ghost use Rattle.clv_base.specs.Logs.{standing};

use crate::Memory;
use clv_base::logs::LogRecord;
use clv_base::names::TxId;
use std::alloc::{AllocError, Global};
use tx_table::TxTable;

// On the way back from a log's end: how many of each transaction's next writes are compensated by the CLRs and UNADDs that were passed.
#[derive(Drop)]
pub struct Passed {
    pub rows: TxTable<usize>,
}

impl Passed {
    ghost use Rattle.std.specs.Prelude.{◌≡◌, [], ◌∷◌, ◌++◌, nat_lt, OnOk, if◌then◌else◌};
    ghost use Rattle.clv_base.specs.declared.names.TxId.{TxId as Tx};
    ghost use Rattle.clv_base.specs.Orders.{tx_same};
    ghost use Rattle.log_analysis.specs.Standing.{owed_in, one_more, one_fewer, Passes};

    fn owed(&self, tx: TxId) -> usize
        ensures { result ≡ owed_in self.now tx }
    {
        self.rows.get(tx).unwrap_or(0)
    }

    fn set(&mut self, tx: TxId, owed: usize) -> Result<(), Memory>
        ensures { OnOk result ((t : Tx) → owed_in self.new t ≡ (if tx_same tx t then owed else owed_in self.old t)) }
    {
        if self.rows.room() == 0 {
            self.rows.reserve(1)?;
        }
        self.rows.set(tx, owed);
        Ok(())
    }

    // A CLR or UNADD is passed.
    fn pass_undo(&mut self, tx: TxId) -> Result<(), Memory>
        ensures { OnOk result ((t : Tx) → owed_in self.new t ≡ one_more tx (owed_in self.old) t) }
    {
        let owed = self.owed(tx).checked_add(1).ok_or(AllocError)?;
        self.set(tx, owed)
    }

    // An UPDATE or ADD is passed: it stands if nothing that was passed compensates it.
    fn pass_write(&mut self, lsns: &mut Vec<u64>, lsn: u64, tx: TxId) -> Result<(), Memory>
        ensures lsns { OnOk result (lsns.new.items ≡ (if nat_lt 0 (owed_in self.old tx) then lsns.old.items else lsns.old.items ++ lsn ∷ [])) }
        ensures owed { OnOk result ((t : Tx) → owed_in self.new t ≡ (if nat_lt 0 (owed_in self.old tx) then one_fewer tx (owed_in self.old) t else owed_in self.old t)) }
    {
        let owed = self.owed(tx);
        if owed > 0 {
            return self.set(tx, owed - 1);
        }
        lsns.push(lsn)?;
        Ok(())
    }

    // A record is passed.
    fn pass(&mut self, lsns: &mut Vec<u64>, lsn: u64, r: &LogRecord) -> Result<(), Memory>
        ensures { OnOk result (Passes (owed_in self.old) lsns.old.items lsn r.now (owed_in self.new) lsns.new.items) }
    {
        match r {
            LogRecord::Update { tx, .. } | LogRecord::Add { tx, .. } => {
                self.pass_write(lsns, lsn, *tx)
            }
            LogRecord::Clr { tx, .. } | LogRecord::Unadd { tx, .. } => self.pass_undo(*tx),
            _ => Ok(()),
        }
    }
}

/// The LSNs of the UPDATEs and ADDs that stand, the newest first, for every log, in order or not. `Memory` comes for want of memory alone. Takes
/// one pass over the log, from its end.
pub fn standing_lsns(alloc: Global, records: &[LogRecord]) -> Result<Vec<u64>, Memory>
    ensures { IfOk result (λ lsns. lsns.items ≡ map (λ w. w.lsn) (standing records.now)) }
{
    let mut lsns = Vec::new(alloc);
    let mut passed = Passed {
        rows: TxTable::new(alloc),
    };
    for lsn in (0..records.len()).rev() {
        passed.pass(&mut lsns, lsn as u64, &records[lsn])?;
    }
    Ok(lsns)
}
