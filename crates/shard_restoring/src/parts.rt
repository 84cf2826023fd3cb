//! The parts of those in doubt.
ghost use Rattle.std.specs.Prelude.{◌≡◌, map, IfOk};
ghost use Rattle.std.specs.List.Sorted.{IsStrictlySortedBy};
ghost use Rattle.clv_base.specs.Orders.{tx_cmp};
ghost use Rattle.clv_base.specs.Restarts.{old_birth as birth_of_old, restored_part as part_restored, restored_parts};

use clv_base::names::{Birth, TxId};
use clv_base::state::{Held, Stage};
use std::alloc::{AllocError, Global};
use tx_table::PartTable;

/// The age of a restored part.
pub(crate) fn old_birth(tx: TxId) -> Birth
    ensures { result ≡ birth_of_old tx }
{
    Birth {
        stamp: 0,
        session: tx.session,
        serial: tx.serial,
    }
}

fn restored_part(tx: TxId) -> Held
    ensures { result ≡ part_restored tx }
{
    Held {
        birth: old_birth(tx),
        stage: Stage::Closed,
        is_restored: true,
        is_dropped: false,
    }
}

/// The parts of the transactions, which rise: closed, and restored.
pub(crate) fn parts_of(alloc: Global, txs: &[TxId]) -> Result<PartTable, AllocError>
    requires rising { IsStrictlySortedBy tx_cmp txs.now }
    ensures { IfOk result (λ parts. parts.entries ≡ restored_parts txs.now) }
{
    let mut parts = PartTable::new(alloc);
    for tx in txs {
        parts.enter(*tx, restored_part(*tx))?;
    }
    Ok(parts)
}

fn first(doubtful: &(TxId, u32)) -> TxId
    ensures { result ≡ doubtful.now.0 }
{
    doubtful.0
}

/// The transactions of a list with their homes.
pub(crate) fn firsts(alloc: Global, doubtful: &[(TxId, u32)]) -> Result<Vec<TxId>, AllocError>
    ensures { IfOk result (λ txs. txs.items ≡ map (λ d. d.0) doubtful.now) }
{
    doubtful.iter().map(first).collect(alloc)
}
