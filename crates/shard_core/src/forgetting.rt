//! What is over is forgotten.
ghost use Rattle.std.specs.Prelude.{◌≡◌, None, Some, slice_get};
ghost use Rattle.std.specs.Option.{option_copied};
ghost use Rattle.std.specs.List.Sorted.{IsStrictlySortedBy};
ghost use Rattle.std.specs.Map.{keys_of};
ghost use Rattle.clv_base.specs.declared.state.Stage.TheVariants.{Gone};
ghost use Rattle.clv_base.specs.Orders.{tx_cmp, tx_get, tx_drop};
ghost use Rattle.clv_base.specs.Undo.{stage_of as stage_in};
ghost use Rattle.two_phase_commit.specs.Completed.{is_finished as is_finished_stage, is_spent as is_spent_in};
ghost use Rattle.shard_core.specs.Whole.{IsAtRest};

use crate::shard::ShardCore;
use clv_base::logs::LogRecord;
use clv_base::names::TxId;
use clv_base::state::Stage;
use lock_table::Locks;
use ordered_store::Store;
use protocol_laws::candidates::due_by_facts;
use two_phase_commit::Kept;

/// Whether a part is gone, and no abort took it away.
fn is_finished(stage: Option<Stage>) -> bool
    ensures { result ≡ is_finished_stage stage }
{
    match stage {
        Some(Stage::Gone { doom: None }) => true,
        Some(Stage::Gone { doom: Some(_) } | Stage::Active | Stage::Closed) | None => false,
    }
}

impl<S: Store + Drop, L: Locks + Drop> ShardCore<S, L> {
    /// Whether nothing can ask for the transaction's request any more: its part here is finished, its COMMIT is in the log, and the request is complete.
    /// False where it has none here.
    pub fn is_spent(&self, tx: TxId) -> bool
        ensures { result ≡ is_spent_in self.now.shard tx }
    {
        is_finished(self.stage_of(tx)) && self.is_committed(tx) && self.coordinator.is_complete(tx)
    }

    /// The record at an LSN, if there is one.
    pub fn record_at(&self, lsn: u64) -> Option<&LogRecord>
        ensures { option_copied result ≡ slice_get ((self.now.shard).local).log lsn }
    {
        self.records(0, self.log_end()).get(lsn as usize)
    }

    /// The transaction's request, if it has one, is kept no more, where its part here is finished, and given away. Takes no memory.
    pub fn forget_request(&mut self, tx: TxId) -> Option<Kept>
        requires rest { IsAtRest self.old }
        requires finished { stage_in (self.old.shard).local tx ≡ Some (Gone None) }
        ensures given { result ≡ tx_get tx (self.old.shard).requests }
        ensures rising { IsStrictlySortedBy tx_cmp (keys_of (self.old.shard).requests) }
        ensures shard { self.new.shard ≡ record self.old.shard { requests = tx_drop tx (self.old.shard).requests } }
        ensures rest { IsAtRest self.new }
    {
        due_by_facts();
        let request = self.coordinator.forget(tx);
        self.transactions.kept();
        request
    }
}
