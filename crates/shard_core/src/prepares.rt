//! The LSN of each PREPARE.
ghost use Rattle.std.specs.Prelude.{◌≡◌, None, OnOk, IfOk};
ghost use Rattle.clv_base.specs.declared.names.TxId.{TxId as Tx};
ghost use Rattle.clv_base.specs.Orders.{tx_get};
ghost use Rattle.clv_base.specs.Logs.{is_prepare_of, prepare_lsn};
ghost use Rattle.shard_core.specs.Placed.{first_of, place_if};

use clv_base::logs::LogRecord;
use std::alloc::{AllocError, Global};
use tx_table::TxTable;

/// The transaction of a PREPARE gets its LSN, unless it has one.
fn note_prepare(
    prepares: &mut TxTable<u64>,
    lsn: usize,
    found: &LogRecord,
) -> Result<(), AllocError>
    ensures { OnOk result ((t : Tx) → tx_get t prepares.new.rows ≡ first_of (tx_get t prepares.old.rows) (place_if (is_prepare_of t found.now) lsn)) }
{
    if let LogRecord::Prepare { tx, .. } = found {
        if prepares.get(*tx).is_none() {
            prepares.reserve(1)?;
            prepares.set(*tx, lsn as u64);
        }
    }
    Ok(())
}

/// Each transaction with a PREPARE in the log gets its first one's LSN.
fn note_prepares(prepares: &mut TxTable<u64>, log: &[LogRecord]) -> Result<(), AllocError>
    requires { (t : Tx) → tx_get t prepares.old.rows ≡ None }
    ensures { OnOk result ((t : Tx) → tx_get t prepares.new.rows ≡ prepare_lsn log.now t) }
{
    for (lsn, found) in log.iter().enumerate() {
        note_prepare(prepares, lsn, found)?;
    }
    Ok(())
}

/// The LSN of the PREPARE of each transaction that has one in the log.
pub fn prepares_of(alloc: Global, log: &[LogRecord]) -> Result<TxTable<u64>, AllocError>
    ensures { IfOk result (λ prepares. (t : Tx) → tx_get t prepares.rows ≡ prepare_lsn log.now t) }
{
    let mut prepares = TxTable::new(alloc);
    note_prepares(&mut prepares, log)?;
    Ok(prepares)
}
