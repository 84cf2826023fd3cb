//! The locks of those in doubt.
ghost use Rattle.std.specs.Prelude.{◌≡◌, [], map, OnOk, IfOk};
ghost use Rattle.clv_base.specs.declared.names.TxId.{TxId as Tx};
ghost use Rattle.clv_base.specs.declared.modes.Anchor.TheVariants.{At};
ghost use Rattle.clv_base.specs.Orders.{tx_in};
ghost use Rattle.clv_base.specs.Locks.{take_one};
ghost use Rattle.clv_base.specs.Logs.{standing};
ghost use Rattle.clv_base.specs.Restarts.{restored_locks};
ghost use Rattle.shard_restoring.specs.Opened.{open_lock, with_update, open_locks, close_each};

use crate::parts::old_birth;
use clv_base::logs::LogRecord;
use clv_base::modes::{Anchor, Mode, Need, Part};
use clv_base::names::TxId;
use lock_table::{Locks, Memory};
use log_analysis::{TxSet, standing_lsns};
use std::alloc::Global;

/// Takes a part on a record.
fn take_key<L: Locks>(locks: &mut L, tx: TxId, key: u64, part: Part) -> Result<(), Memory>
    ensures { OnOk result (L.rows locks.new ≡ take_one (At key) (open_lock tx part) (L.rows locks.old)) }
{
    let need = Need {
        anchor: Anchor::At(key),
        mode: Mode {
            key: part,
            gap: Part::N,
        },
    };
    locks.reserve(tx, &[Anchor::At(key)], 1)?;
    locks.take(tx, old_birth(tx), &[need]);
    Ok(())
}

/// Takes key X on the key of an UPDATE of one of these, and key I on that of an ADD.
fn take_update<L: Locks>(locks: &mut L, doubtful: &TxSet, found: &LogRecord) -> Result<(), Memory>
    ensures { OnOk result (L.rows locks.new ≡ with_update doubtful.now found.now (L.rows locks.old)) }
{
    match found {
        LogRecord::Update { tx, key, .. } => {
            if doubtful.contains(*tx) {
                take_key(locks, *tx, *key, Part::X)?;
            }
        }
        LogRecord::Add { tx, key, .. } => {
            if doubtful.contains(*tx) {
                take_key(locks, *tx, *key, Part::I)?;
            }
        }
        _ => {}
    }
    Ok(())
}

/// So on the keys of all writes of these that stand, at these LSNs.
fn take_updates<L: Locks>(
    locks: &mut L,
    doubtful: &TxSet,
    log: &[LogRecord],
    lsns: &[u64],
) -> Result<(), Memory>
    requires { lsns.now ≡ map (λ w. w.lsn) (standing log.now) }
    ensures { OnOk result (L.rows locks.new ≡ open_locks doubtful.now (standing log.now) (L.rows locks.old)) }
{
    for lsn in lsns {
        take_update(locks, doubtful, &log[*lsn as usize])?;
    }
    Ok(())
}

/// The same, by the log alone, which isn't looked at where these are none.
fn take_standing<L: Locks>(
    alloc: Global,
    locks: &mut L,
    doubtful: &TxSet,
    log: &[LogRecord],
) -> Result<(), Memory>
    ensures { OnOk result (L.rows locks.new ≡ open_locks doubtful.now (standing log.now) (L.rows locks.old)) }
{
    if doubtful.is_empty() {
        return Ok(());
    }
    let Ok(lsns) = standing_lsns(alloc, log) else {
        return Err(Memory);
    };
    take_updates(locks, doubtful, log, &lsns)
}

/// The locks of the transactions are closed. Takes no memory.
fn close_all<L: Locks>(locks: &mut L, txs: &[TxId])
    ensures { L.rows locks.new ≡ close_each txs.now (L.rows locks.old) }
{
    for tx in txs {
        locks.close_part(*tx);
    }
}

/// The locks of the transactions, which are those of the set, closed: on the key of each of their writes that stand, key I where they only added
/// there, else key X.
pub(crate) fn locks_of<L: Locks + Drop>(
    alloc: Global,
    txs: &[TxId],
    doubtful: &TxSet,
    log: &[LogRecord],
) -> Result<L, Memory>
    requires { (t : Tx) → tx_in t doubtful.now ≡ tx_in t txs.now }
    ensures { IfOk result (λ locks. L.rows locks ≡ restored_locks txs.now (standing log.now) []) }
{
    let mut locks = L::empty(alloc)?;
    take_standing(alloc, &mut locks, doubtful, log)?;
    close_all(&mut locks, txs);
    Ok(locks)
}
