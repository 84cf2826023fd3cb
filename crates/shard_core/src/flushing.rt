//! Records go to the disk.
ghost use Rattle.std.specs.Prelude.{◌≡◌, ◌≤◌, ◌<◌, ◌+◌, ◌||◌, Some, None, drop, length, slice_range};
ghost use Rattle.std.specs.List.Sorted.{IsStrictlySortedBy};
ghost use Rattle.clv_base.specs.declared.names.TxId.{TxId as Tx};
ghost use Rattle.clv_base.specs.Logs.{fitting};
ghost use Rattle.clv_base.specs.Orders.{tx_cmp, tx_in};
ghost use Rattle.clv_base.specs.OneShard.{purge};
ghost use Rattle.clv_base.specs.Events.{finish, taken, with_flight, with_durable};
ghost use Rattle.tx_table.specs.Held.{HasRoomBy};
ghost use Rattle.due_step.specs.Ready.{IsReady};
ghost use Rattle.txn_core.specs.Landed.{concern};
ghost use Rattle.txn_core.specs.Sound.{IsSound};
ghost use Rattle.shard_core.specs.Whole.{IsAtRest};

use crate::shard::ShardCore;
use due_step::settle_due;
use lock_table::Locks;
use ordered_store::Store;
use tx_table::Candidates;
use txn_core::ShardTx;

/// The greatest batch, in bytes.
pub(crate) const BATCH_BYTES: usize = 1_048_576;

/// The records that were taken are durable, and those whom they concern are candidates besides.
fn land_noted<S: Store + Drop, L: Locks + Drop>(
    transactions: &mut ShardTx<S, L>,
    candidates: &mut Candidates,
)
    requires { HasRoomBy (concern (transactions.old.local).pairs (slice_range (transactions.old.local).log transactions.old.durable transactions.old.taken)) candidates.old }
    ensures durable { transactions.new ≡ record transactions.old { durable = transactions.old.taken } }
    ensures order { transactions.old.durable ≤ transactions.old.taken }
    ensures txs { (x : Tx) → tx_in x candidates.new.txs ≡ (concern (transactions.old.local).pairs (slice_range (transactions.old.local).log transactions.old.durable transactions.old.taken) x || tx_in x candidates.old.txs) }
    ensures limit { candidates.new.limit ≡ candidates.old.limit }
    ensures sound { IsSound transactions.new.local transactions.new.room }
    ensures purged { purge transactions.new.local ≡ transactions.new.local }
    ensures rise { IsStrictlySortedBy tx_cmp candidates.new.txs }
    ensures few { length candidates.new.txs ≤ candidates.new.limit }
{
    let upto = transactions.taken();
    transactions.note_landed(upto, candidates);
    transactions.durable_to(upto);
    transactions.kept();
    let _least = candidates.first();
}

impl<S: Store + Drop, L: Locks + Drop> ShardCore<S, L> {
    /// The next records are in flight, before what is due then is done. Takes no memory.
    fn take_here(&mut self)
        requires rest { IsAtRest self.old }
        requires none { (self.old.shard).flight ≡ None }
        requires some { 0 < fitting 1048576 (drop (taken self.old.shard) ((self.old.shard).local).log) }
        ensures ready { IsReady self.new.shard self.new.candidates self.new.limit }
        ensures finished { finish self.new.shard ≡ finish (with_flight ((self.old.shard).durable + fitting 1048576 (drop (taken self.old.shard) ((self.old.shard).local).log)) self.old.shard) }
    {
        self.transactions.take_batch(BATCH_BYTES);
        self.transactions.kept();
    }

    /// The records in flight are durable, before what is due then is done. Takes no memory.
    fn land_here(&mut self, upto: u64)
        requires rest { IsAtRest self.old }
        requires flies { (self.old.shard).flight ≡ Some upto }
        ensures ready { IsReady self.new.shard self.new.candidates self.new.limit }
        ensures finished { finish self.new.shard ≡ finish (with_durable upto self.old.shard) }
    {
        land_noted(&mut self.transactions, &mut self.candidates);
    }

    /// The longest run of next records that fits a batch is in flight from now on. Takes no memory.
    pub fn take_batch(&mut self)
        requires rest { IsAtRest self.old }
        requires none { (self.old.shard).flight ≡ None }
        requires some { 0 < fitting 1048576 (drop (taken self.old.shard) ((self.old.shard).local).log) }
        ensures taken { self.new.shard ≡ finish (with_flight ((self.old.shard).durable + fitting 1048576 (drop (taken self.old.shard) ((self.old.shard).local).log)) self.old.shard) }
        ensures rest { IsAtRest self.new }
    {
        self.take_here();
        settle_due(self);
    }

    /// The records in flight are durable, and all is done that is due then. Takes no memory.
    pub fn land(&mut self, upto: u64)
        requires rest { IsAtRest self.old }
        requires flies { (self.old.shard).flight ≡ Some upto }
        ensures landed { self.new.shard ≡ finish (with_durable upto self.old.shard) }
        ensures rest { IsAtRest self.new }
    {
        self.land_here(upto);
        settle_due(self);
    }
}
