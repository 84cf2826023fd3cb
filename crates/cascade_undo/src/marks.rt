//! A set of transactions, as a list.
ghost use Rattle.std.specs.Prelude.{◌≡◌};
ghost use Rattle.std.specs.List.Sorted.{IsStrictlySortedBy};
ghost use Rattle.clv_base.specs.Orders.{tx_cmp, tx_in};
ghost use Rattle.clv_base.specs.Logs.{standing};
ghost use Rattle.cascade_undo.specs.Steps.{newest_in, lsn_of};

use clv_base::logs::LogRecord;
use clv_base::names::TxId;
use log_buffer::LogBuffer;

/// Whether the transaction is one of the set.
pub(crate) fn contains(set: &[TxId], tx: TxId) -> bool
    requires { IsStrictlySortedBy tx_cmp set.now }
    ensures { result ≡ tx_in tx set.now }
{
    set.binary_search(&tx).is_ok()
}

/// The greatest LSN at which a write of the set stands.
pub(crate) fn greatest_lsn(buffer: &LogBuffer<LogRecord>, set: &[TxId]) -> Option<u64>
    ensures { result ≡ lsn_of (newest_in set.now (standing buffer.now.records)) }
{
    let mut greatest = None;
    for tx in set {
        greatest = greatest.max(buffer.newest(*tx));
    }
    greatest
}
