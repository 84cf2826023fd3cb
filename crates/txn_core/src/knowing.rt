//! What holds of the transactions of a shard, whatever was done.
ghost use Rattle.std.specs.Prelude.{◌≡◌, true};
ghost use Rattle.std.specs.List.{list_all};
ghost use Rattle.clv_base.specs.FileRules.{has_spelling};
ghost use Rattle.txn_core.specs.Sound.{FewUndecided};

use crate::shard::ShardTx;
use lock_table::Locks;
use ordered_store::Store;

impl<S: Store + Drop, L: Locks + Drop> ShardTx<S, L> {
    /// A law: no transaction has more than 1,024 predecessors without a COMMIT.
    pub fn few_undecided(&self)
        ensures { FewUndecided (self.now.local).log (self.now.local).pairs }
    {
        let _ = &self.buffer;
    }

    /// A law: each record of the log has a spelling.
    pub fn log_is_spelled(&self)
        ensures { list_all has_spelling (self.now.local).log ≡ true }
    {
        let _ = &self.buffer;
    }
}
