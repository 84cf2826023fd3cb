//! What a look at a request, and a flush, ask of the core, which they leave as it is.
ghost use Rattle.std.specs.Prelude.{◌≡◌, ◌≤◌, drop, length, slice_range};
ghost use Rattle.clv_base.specs.Facts.{facts_of, has_durable_commit as is_durably_committed};
ghost use Rattle.clv_base.specs.Logs.{committed_in, fitting, is_below as below};
ghost use Rattle.clv_base.specs.Orders.{tx_get};
ghost use Rattle.clv_base.specs.Events.{finish, taken as taken_upto};
ghost use Rattle.two_phase_commit.specs.Coordinated.{state_by};
ghost use Rattle.shard_core.specs.Core.{flight_by as flies_by};
ghost use Rattle.shard_core.specs.Whole.{IsAtRest};

use crate::flushing::BATCH_BYTES;
use crate::shard::ShardCore;
use clv_base::logs::LogRecord;
use clv_base::names::TxId;
use clv_base::state::{Held, RequestState};
use lock_table::Locks;
use ordered_store::Store;

/// Whether the place is there and below the front.
fn is_below(lsn: Option<u64>, front: u64) -> bool
    ensures { result ≡ below lsn front }
{
    match lsn {
        Some(lsn) => lsn < front,
        None => false,
    }
}

/// Up to where records are in flight: where more were taken than are durable.
fn flight_by(durable: u64, taken: u64) -> Option<u64>
    ensures { result ≡ flies_by durable taken }
{
    if durable == taken { None } else { Some(taken) }
}

impl<S: Store + Drop, L: Locks + Drop> ShardCore<S, L> {
    /// The number of the shard.
    pub fn number(&self) -> u32
        ensures { result ≡ (self.now.shard).shard }
    {
        self.shard
    }

    /// The run that the shard was opened in.
    pub fn run(&self) -> u32
        ensures { result ≡ (self.now.shard).run }
    {
        self.run
    }

    /// How far the transaction's request is, where this shard is its home and knows it.
    pub fn request_state(&self, tx: TxId) -> Option<RequestState>
        ensures { result ≡ state_by (tx_get tx (self.now.shard).requests) }
    {
        self.coordinator.state_of(tx)
    }

    /// Whether the transaction's COMMIT here is durable.
    pub fn has_durable_commit(&self, tx: TxId) -> bool
        ensures { result ≡ is_durably_committed (facts_of self.now.shard tx) }
    {
        is_below(self.transactions.commit_of(tx), self.transactions.durable())
    }

    /// Whether a COMMIT of the transaction is in the log, durable or not.
    pub fn is_committed(&self, tx: TxId) -> bool
        ensures { result ≡ committed_in ((self.now.shard).local).log tx }
    {
        self.transactions.is_committed(tx)
    }

    /// The transaction's part here, where it is known.
    pub fn part(&self, tx: TxId) -> Option<Held>
        ensures { result ≡ tx_get tx ((self.now.shard).local).parts }
    {
        self.transactions.part(tx)
    }

    /// The records below this LSN are durable.
    pub fn durable(&self) -> u64
        ensures { result ≡ (self.now.shard).durable }
    {
        self.transactions.durable()
    }

    /// Up to which LSN records are in flight, where some are.
    pub fn flight(&self) -> Option<u64>
        ensures { result ≡ (self.now.shard).flight }
    {
        flight_by(self.transactions.durable(), self.transactions.taken())
    }

    /// The records below this LSN are durable or in flight.
    pub fn taken(&self) -> u64
        ensures taken { result ≡ taken_upto self.now.shard }
        ensures behind { (self.now.shard).durable ≤ result }
        ensures within { result ≤ length ((self.now.shard).local).log }
    {
        self.transactions.taken()
    }

    /// How many records the next batch would have.
    pub fn next_count(&self) -> usize
        ensures { result ≡ fitting 1048576 (drop (taken_upto self.now.shard) ((self.now.shard).local).log) }
    {
        self.transactions.next_batch(BATCH_BYTES).count
    }

    /// The records from an LSN on and below another.
    pub fn records(&self, from: u64, upto: u64) -> &[LogRecord]
        requires { (from ≤ upto) × (upto ≤ length ((self.now.shard).local).log) }
        ensures { result.now ≡ slice_range ((self.now.shard).local).log from upto }
    {
        self.transactions.records(from, upto)
    }

    /// At rest nothing is left to do, and no ghost to let go: the shard is as an event that changes nothing leaves it. Does nothing.
    pub fn settled(&self)
        requires { IsAtRest self.now }
        ensures { finish self.now.shard ≡ self.now.shard }
    {
        let _ = &self.shard;
    }
}
