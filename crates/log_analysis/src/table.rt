// What a log says of all transactions.

ghost use Rattle.std.specs.Prelude.{◌≡◌, ◌<◌, false, List, ◌∷◌, ◌++◌, [], length, IfOk, OnOk, OnErr, if◌then◌else◌};
ghost use Rattle.clv_base.specs.declared.names.TxId.{TxId as Tx};
ghost use Rattle.clv_base.specs.declared.logs.LogRecord.{LogRecord as Record};
ghost use Rattle.clv_base.specs.Orders.{tx_same, tx_get, tx_put};
ghost use Rattle.clv_base.specs.Logs.{is_record_of};
ghost use Rattle.log_analysis.specs.Facts.{Knows, known, facts_of, facts_with, with_newest};

use crate::facts::{TxFacts, owner};
use clv_base::logs::LogRecord;
use clv_base::names::TxId;
use std::alloc::{AllocError, Global};
use std::marker::Model;
use tx_table::TxTable;

fn row_of(rows: &TxTable<TxFacts>, tx: TxId) -> TxFacts
    ensures { result ≡ known rows.now.rows tx }
{
    rows.get(tx).unwrap_or(TxFacts::unnamed())
}

fn make_room(rows: &mut TxTable<TxFacts>) -> Result<(), AllocError>
    ensures room { OnOk result (0 < rows.new.room) }
    ensures same { (t : Tx) → tx_get t rows.new.rows ≡ tx_get t rows.old.rows }
    ensures err { OnErr result (rows.new.rows ≡ rows.old.rows) }
{
    if rows.room() == 0 {
        rows.reserve(1)?;
    }
    Ok(())
}

fn set_row(rows: &mut TxTable<TxFacts>, tx: TxId, facts: TxFacts) -> Result<(), AllocError>
    ensures set { OnOk result ((t : Tx) → known rows.new.rows t ≡ (if tx_same tx t then facts else known rows.old.rows t)) }
    ensures err { OnErr result (rows.new.rows ≡ rows.old.rows) }
{
    make_room(rows)?;
    rows.set(tx, facts);
    Ok(())
}

// The newest facts go into the rows, where they are of another transaction than this one.
fn leave_newest(
    rows: &mut TxTable<TxFacts>,
    newest: Option<(TxId, TxFacts)>,
    tx: TxId,
) -> Result<(), AllocError>
    ensures set { OnOk result ((t : Tx) → tx_same tx t ≡ false → known rows.new.rows t ≡ known (with_newest newest rows.old.rows) t) }
    ensures err { OnErr result (rows.new.rows ≡ rows.old.rows) }
{
    let Some((other, facts)) = newest else {
        return Ok(());
    };
    if other == tx {
        return Ok(());
    }
    set_row(rows, other, facts)
}

/// What a log says of each transaction.
#[derive(Drop)]
pub struct LogFacts {
    rows: TxTable<TxFacts>,
    // Of the transaction of the newest record, in the place of what the rows have of it: records of one transaction often stand together, and then
    // none but the first is looked up.
    newest: Option<(TxId, TxFacts)>,
}

impl Model for LogFacts {
    ghost use Rattle.clv_base.specs.Orders.{Table};
    ghost use Rattle.log_analysis.specs.Facts.{TxFacts as Facts, with_newest};

    ghost Value = { Table Facts };

    ghost view = { λ f. with_newest f.newest f.rows.rows };
}

impl LogFacts {
    /// Of the empty log. Takes no memory.
    pub fn new(alloc: Global) -> Self
        ensures { Knows result [] }
    {
        LogFacts {
            rows: TxTable::new(alloc),
            newest: None,
        }
    }

    /// What the log says of a transaction.
    pub fn get(&self, tx: TxId) -> TxFacts
        ensures { result ≡ known self.now tx }
    {
        match &self.newest {
            Some((newest, facts)) if tx == *newest => *facts,
            Some(_) | None => row_of(&self.rows, tx),
        }
    }

    // The transaction has these facts from now on, and is that of the newest record.
    fn hold(&mut self, tx: TxId, facts: TxFacts) -> Result<(), AllocError>
        ensures set { OnOk result ((t : Tx) → known self.new t ≡ (if tx_same tx t then facts else known self.old t)) }
        ensures err { OnErr result (self.new ≡ self.old) }
    {
        leave_newest(&mut self.rows, self.newest, tx)?;
        self.newest = Some((tx, facts));
        Ok(())
    }

    fn put(&mut self, lsn: usize, r: &LogRecord) -> Result<(), AllocError>
        ensures set { OnOk result ((t : Tx) → known self.new t ≡ (if is_record_of t r.now then facts_with lsn r.now (known self.old t) else known self.old t)) }
        ensures err { OnErr result (self.new ≡ self.old) }
    {
        match owner(r) {
            None => Ok(()),
            Some(tx) => {
                let facts = self.get(tx).with(lsn, r)?;
                self.hold(tx, facts)
            }
        }
    }

    /// With one more record at the end of the log, at this LSN. An `Err` changes nothing.
    pub fn add(&mut self, lsn: usize, r: &LogRecord) -> Result<(), AllocError>
        ensures added { OnOk result ((log : List Record) → length log ≡ lsn → Knows self.old log → Knows self.new (log ++ r.now ∷ [])) }
        ensures err { OnErr result (self.new ≡ self.old) }
    {
        self.put(lsn, r)
    }

    /// Of a whole log.
    pub fn of_log(alloc: Global, records: &[LogRecord]) -> Result<Self, AllocError>
        ensures { IfOk result (λ f. Knows f records.now) }
    {
        let mut facts = Self::new(alloc);
        for (lsn, r) in records.iter().enumerate() {
            facts.add(lsn, r)?;
        }
        Ok(facts)
    }
}
