//! Goings back.
ghost use Rattle.std.specs.Prelude.{◌≡◌, ◌==◌, Some};
ghost use Rattle.clv_base.specs.declared.state.Stage.TheVariants.{Active};
ghost use Rattle.clv_base.specs.State.{with_local};
ghost use Rattle.clv_base.specs.Undo.{stage_of as stage_in, roll_to as without_newest};
ghost use Rattle.clv_base.specs.Events.{finish, Does};
ghost use Rattle.due_step.specs.Ready.{IsReady};
ghost use Rattle.shard_core.specs.Rolling.{gone_cause as cause_of, goes_back, went_back};
ghost use Rattle.shard_core.specs.Whole.{IsAtRest};

use crate::answering::note;
use crate::shard::ShardCore;
use clv_base::causes::AbortCause;
use clv_base::names::TxId;
use clv_base::state::Stage;
use due_step::settle_due;
use lock_table::Locks;
use ordered_store::Store;

/// Why a transaction whose part is gone can't go back: an abort took it away, or it was finished.
fn gone_cause(tx: TxId, doom: Option<TxId>) -> AbortCause
    ensures { result ≡ cause_of tx doom }
{
    match doom {
        None => AbortCause::Asked,
        Some(doom) if tx == doom => AbortCause::Asked,
        Some(doom) => AbortCause::Predecessor { tx: doom },
    }
}

impl<S: Store + Drop, L: Locks + Drop> ShardCore<S, L> {
    /// The newest writes of the active part that stand, so many of them, are taken back, before what is due then is done: for its own
    /// transaction alone. Takes no memory.
    fn roll_here(&mut self, tx: TxId, count: usize)
        requires rest { IsAtRest self.old }
        requires active { stage_in (self.old.shard).local tx ≡ Some Active }
        ensures ready { IsReady self.new.shard self.new.candidates self.new.limit }
        ensures finished { finish self.new.shard ≡ finish (with_local (without_newest tx count) self.old.shard) }
    {
        self.transactions.roll_to(tx, count);
        note(tx, &self.transactions, &mut self.candidates);
    }

    /// The transaction goes back: so many of its newest writes here that stand are taken back, and then all is done that is due. Its part, its
    /// locks and whom it follows stay. Where no part of it is known there is nothing to take back. It fails where this shard's epoch is another
    /// than the one that its session has seen, and where its part isn't active any more; then all stays. Takes no memory.
    pub fn roll_to(&mut self, tx: TxId, seen: u64, count: usize) -> Option<AbortCause>
        requires { IsAtRest self.old }
        ensures happens { goes_back self.old.shard tx seen count (seen == ((self.old.shard).local).epoch) ≡ Does (went_back result) self.new.shard }
        ensures rest { IsAtRest self.new }
    {
        let now = self.epoch();
        if seen != now {
            return Some(AbortCause::Restarted {
                shard: self.shard,
                seen,
                now,
            });
        }
        match self.stage_of(tx) {
            Some(Stage::Gone { doom }) => Some(gone_cause(tx, doom)),
            Some(Stage::Closed) => Some(AbortCause::Asked),
            Some(Stage::Active) => {
                self.roll_here(tx, count);
                settle_due(self);
                None
            }
            None => None,
        }
    }
}
