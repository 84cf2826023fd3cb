//! What holds of a shard's transactions, whatever was done.
ghost use Rattle.std.specs.Prelude.{◌≡◌};
ghost use Rattle.clv_base.specs.OneShard.{purge};
ghost use Rattle.txn_core.specs.Sound.{IsSound};

use crate::shard::ShardTx;
use lock_table::Locks;
use ordered_store::Store;

impl<S: Store + Drop, L: Locks + Drop> ShardTx<S, L> {
    /// What holds, whatever was done, for a caller to rely on: what each part did can be taken away, its writes bear its locks, and no ghost is without
    /// a lock. Does nothing.
    pub fn kept(&self)
        ensures sound { IsSound self.now.local self.now.room }
        ensures purged { purge self.now.local ≡ self.now.local }
    {
        let _ = &self.shard;
    }
}
