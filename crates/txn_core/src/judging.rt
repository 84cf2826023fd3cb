//! What is found of an operation, before anything is done.
ghost use Rattle.std.specs.Prelude.{◌≡◌, true, IfOk};
ghost use Rattle.clv_base.specs.OneShard.{op_active, op_reply, seen_fits as seen_is_fit};
ghost use Rattle.clv_base.specs.Coordinator.{doom_cause as cause_of_doom};
ghost use Rattle.clv_base.specs.Undo.{stage_of as stage_in};
ghost use Rattle.txn_core.specs.Sound.{may_work};
ghost use Rattle.txn_core.specs.Judged.{IsJudged, death_by, judged_by};

use crate::deciding::{Decided, decide};
use crate::shard::ShardTx;
use clv_base::causes::AbortCause;
use clv_base::names::{Birth, TxId};
use clv_base::ops::Op;
use clv_base::state::Stage;
use lock_table::{Locks, Memory};
use ordered_store::Store;
use shard_ops::Plan;
use std::alloc::Global;

/// What is found of an operation.
#[derive(Drop)]
pub(crate) enum Judged {
    /// It may be done so, and violates the writes of these.
    Grant { plan: Plan, violated: Vec<TxId> },
    /// It has to wait.
    Wait { younger: TxId },
    /// It would have too many undecided predecessors.
    Crowded { count: usize },
    /// Its transaction is dead, and nothing of it is here any more, or it has asked.
    Dead(AbortCause),
    /// Its transaction dies, and its part here has to be rolled back.
    Dying(AbortCause),
}

/// Whether the epoch that was seen, if any, is the shard's.
fn seen_fits(epoch: u64, seen: Option<u64>) -> bool
    ensures { result ≡ seen_is_fit epoch seen }
{
    match seen {
        Some(seen) => seen == epoch,
        None => true,
    }
}

/// The cause that a part which an abort took away answers.
fn doom_cause(tx: TxId, doom: TxId) -> AbortCause
    ensures { result ≡ cause_of_doom tx doom }
{
    if tx == doom {
        AbortCause::Asked
    } else {
        AbortCause::Predecessor { tx: doom }
    }
}

/// A death, by whether there is a part to be rolled back.
fn death(stage: Option<Stage>, cause: AbortCause) -> Judged
    ensures { result ≡ death_by stage cause }
{
    match stage {
        Some(Stage::Active | Stage::Closed) => Judged::Dying(cause),
        Some(Stage::Gone { .. }) | None => Judged::Dead(cause),
    }
}

/// What was decided, where the part is active or not known.
fn outcome_of(stage: Option<Stage>, decided: Decided) -> Judged
    ensures { result ≡ judged_by stage decided }
{
    match decided {
        Decided::Grant { plan, violated } => Judged::Grant { plan, violated },
        Decided::Wait { younger } => Judged::Wait { younger },
        Decided::Crowded { count } => Judged::Crowded { count },
        Decided::Die { older } => death(stage, AbortCause::Died { older }),
    }
}

impl<S: Store + Drop, L: Locks + Drop> ShardTx<S, L> {
    /// What the locks say of an operation; `stage` is how far its part here is.
    fn judge_locks(
        &self,
        alloc: Global,
        stage: Option<Stage>,
        tx: TxId,
        birth: Birth,
        op: &Op,
    ) -> Result<Judged, Memory>
        requires stage { stage ≡ stage_in self.now.local tx }
        requires work { may_work (stage_in self.now.local tx) ≡ true }
        ensures { IfOk result (IsJudged self.now.local tx birth op.now (op_active self.now.local tx birth op.now)) }
    {
        match decide(
            alloc,
            &self.store,
            &self.locks,
            &self.deps,
            &self.buffer,
            tx,
            birth,
            op,
        ) {
            Ok(decided) => Ok(outcome_of(stage, decided)),
            Err(memory) => Err(memory),
        }
    }

    /// What is found of an operation; `stage` is how far its part here is.
    pub(crate) fn judge(
        &self,
        alloc: Global,
        stage: Option<Stage>,
        tx: TxId,
        birth: Birth,
        seen: Option<u64>,
        op: &Op,
    ) -> Result<Judged, Memory>
        requires { stage ≡ stage_in self.now.local tx }
        ensures { IfOk result (IsJudged self.now.local tx birth op.now (op_reply self.now.shard self.now.local tx birth seen op.now)) }
    {
        if !seen_fits(self.epoch, seen) {
            let cause = AbortCause::Restarted {
                shard: self.shard,
                seen: seen.unwrap_or(0),
                now: self.epoch,
            };
            return Ok(death(stage, cause));
        }
        match stage {
            None | Some(Stage::Active) => self.judge_locks(alloc, stage, tx, birth, op),
            Some(Stage::Closed | Stage::Gone { doom: None }) => Ok(Judged::Dead(AbortCause::Asked)),
            Some(Stage::Gone { doom: Some(doom) }) => Ok(Judged::Dead(doom_cause(tx, doom))),
        }
    }
}
