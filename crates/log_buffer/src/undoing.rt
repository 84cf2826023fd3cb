//! The writes of a transaction in a log.
ghost use Rattle.std.specs.Prelude.{◌≡◌, length};
ghost use Rattle.std.specs.List.{filter};
ghost use Rattle.clv_base.specs.Orders.{tx_same};
ghost use Rattle.clv_base.specs.Logs.{has_standing, undone_lsn, standing, without_newest};
ghost use Rattle.clv_base.specs.Undo.{newest_lsn};

use crate::buffer::LogBuffer;
use clv_base::logs::LogRecord;
use clv_base::names::TxId;

impl LogBuffer<LogRecord> {
    /// Whether a write of the transaction stands.
    pub fn has_standing(&self, tx: TxId) -> bool
        ensures { result ≡ has_standing self.now.records tx }
    {
        self.chain.newest(tx).is_some()
    }

    /// How many writes of the transaction stand.
    pub fn standing_writes(&self, tx: TxId) -> usize
        ensures { result ≡ length (filter (λ w. tx_same tx w.tx) (standing self.now.records)) }
    {
        self.chain.count(tx)
    }

    /// The LSN of the last CLR or UNADD of the transaction.
    pub fn rolled(&self, tx: TxId) -> Option<u64>
        ensures { result ≡ undone_lsn self.now.records tx }
    {
        lsn_of(self.chain.undone(tx))
    }

    /// The LSN of the transaction's newest write that stands.
    pub fn newest(&self, tx: TxId) -> Option<u64>
        ensures { result ≡ newest_lsn tx (standing self.now.records) }
    {
        lsn_of(self.chain.newest(tx))
    }

    /// The LSN of its write that stands below that one.
    pub fn second_newest(&self, tx: TxId) -> Option<u64>
        ensures { result ≡ newest_lsn tx (without_newest tx (standing self.now.records)) }
    {
        lsn_of(self.chain.second(tx))
    }
}

fn lsn_of(place: Option<usize>) -> Option<u64>
    ensures { result ≡ place }
{
    match place {
        None => None,
        Some(place) => Some(place as u64),
    }
}
