//! What is due, one thing after another.
ghost use Rattle.std.specs.Prelude.{◌≡◌, true, false, None, Some, IsTrue, is_some};
ghost use Rattle.clv_base.specs.declared.parts.PartFacts.{PartFacts as Facts};
ghost use Rattle.clv_base.specs.Orders.{tx_get};
ghost use Rattle.clv_base.specs.Due.{due_of};
ghost use Rattle.clv_base.specs.Facts.{is_waiting};
ghost use Rattle.due_step.specs.Ready.{IsReady, IsDone, least};
ghost use Rattle.due_step.specs.declared.finding.Due.TheVariants.{Commit};
ghost use Rattle.two_phase_commit.specs.Coordinated.{ruling_of};
ghost use Rattle.two_phase_commit.specs.Voting.{home_by};
ghost use Rattle.shard_core.specs.Finished.{IsFinished};

use crate::shard::ShardCore;
use clv_base::names::TxId;
use due_step::{Due, Dues, do_one};
use lock_table::Locks;
use ordered_store::Store;
use two_phase_commit::{Coordinator, Participant};

/// Whether a COMMIT was done of which no other shard has to hear: then nothing more is due for its transaction.
fn is_over(
    tx: TxId,
    due: &Option<Due>,
    participant: &Participant,
    coordinator: &Coordinator,
) -> bool
    ensures done { IsTrue result → due.now ≡ Some Commit }
    ensures voter { IsTrue result → home_by (tx_get tx participant.now.voters) ≡ None }
    ensures request { IsTrue result → (f : Facts) → is_waiting f ≡ false → is_some f.doom ≡ false → ruling_of coordinator.now.shard tx f (tx_get tx coordinator.now.requests) ≡ None }
{
    match due {
        Some(Due::Commit) => {
            participant.home_of(tx).is_none() && coordinator.rests(tx, false, false)
        }
        Some(Due::Vote(_) | Due::Ruling(_)) | None => false,
    }
}

impl<S: Store + Drop, L: Locks + Drop> ShardCore<S, L> {
    /// Does what is due for the least candidate, if anything is, and gives it. Takes no memory.
    fn do_first(&mut self, tx: TxId) -> Option<Due>
        requires ready { IsReady self.old.shard self.old.candidates self.old.limit }
        requires first { least self.old.candidates ≡ Some tx }
        ensures done { is_some result ≡ true → IsDone (due_of self.old.shard tx) self.new.shard }
        ensures nothing { is_some result ≡ false → (due_of self.old.shard tx ≡ None) × (self.new.shard ≡ self.old.shard) × (self.new.candidates ≡ self.old.candidates) }
        ensures finished { result ≡ Some Commit → IsFinished (self.new.shard).local tx }
        ensures ready { IsReady self.new.shard self.new.candidates self.new.limit }
        ensures limit { self.new.limit ≡ self.old.limit }
    {
        let due = do_one(
            tx,
            self.shard,
            &mut self.transactions,
            &mut self.participant,
            &mut self.coordinator,
            &self.prepares,
            &mut self.outbox,
            &mut self.candidates,
        );
        self.transactions.kept();
        let _least = self.candidates.first();
        due
    }

    /// Leaves the transaction out at once where what was done shows that nothing more is due for it, so that nobody looks at it again.
    fn leave_over(&mut self, tx: TxId, due: &Option<Due>)
        requires ready { IsReady self.old.shard self.old.candidates self.old.limit }
        requires finished { due.now ≡ Some Commit → IsFinished (self.old.shard).local tx }
        ensures shard { self.new.shard ≡ self.old.shard }
        ensures nothing { is_some due.now ≡ false → self.new.candidates ≡ self.old.candidates }
        ensures ready { IsReady self.new.shard self.new.candidates self.new.limit }
        ensures limit { self.new.limit ≡ self.old.limit }
    {
        if self.candidates.first() != Some(tx) {
            return;
        }
        if is_over(tx, due, &self.participant, &self.coordinator) {
            self.candidates.leave_first();
        }
    }
}

impl<S: Store + Drop, L: Locks + Drop> Dues for ShardCore<S, L> {
    ghost shard = { λ c. c.shard };

    ghost candidates = { λ c. c.candidates };

    ghost limit = { λ c. c.limit };

    fn first(&self) -> Option<TxId> {
        self.candidates.first()
    }

    fn leave_first(&mut self) {
        self.candidates.leave_first();
    }

    fn do_for(&mut self, tx: TxId) -> bool {
        let due = self.do_first(tx);
        self.leave_over(tx, &due);
        due.is_some()
    }
}
