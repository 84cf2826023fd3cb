//! An operation, up to the rolling back of a part that dies.
ghost use Rattle.std.specs.Prelude.{◌≡◌, ◌≤◌, true, length, IfOk, OnErr};
ghost use Rattle.clv_base.specs.FileRules.{tx_has_spelling};
ghost use Rattle.clv_base.specs.OneShard.{OpAnswers, op_reply, performed, undecided_with, violated_here};
ghost use Rattle.protocol_laws.specs.Spelled.{fits_op};
ghost use Rattle.shard_ops.specs.Planned.{IsPlanOf};
ghost use Rattle.clv_base.specs.Undo.{stage_of as stage_in};
ghost use Rattle.txn_core.specs.Sound.{may_work, KeepsSpare};
ghost use Rattle.txn_core.specs.State.{IsSameBut};
ghost use Rattle.txn_core.specs.Attempts.{ComesTo};

use crate::judging::Judged;
use crate::shard::ShardTx;
use clv_base::causes::AbortCause;
use clv_base::names::{Birth, TxId};
use clv_base::ops::{Answer, Op};
use clv_base::state::Stage;
use lock_table::{Locks, Memory};
use ordered_store::Store;
use shard_ops::{Plan, performed_by_plan};
use std::alloc::{AllocError, Global};

/// What an operation comes to.
#[derive(Drop)]
pub(crate) enum Attempt {
    /// It is done; the answer is there twice.
    Answered { answer: Answer, copy: Answer },
    /// Its transaction is dead, and no part of it is here that would have to be rolled back.
    Dead(AbortCause),
    /// Its transaction dies, and its part here is still to be rolled back.
    Dying(AbortCause),
    /// Nothing is done: this younger active transaction holds what it needs.
    Wait { younger: TxId },
    /// Nothing is done: it would have so many undecided predecessors, which are too many.
    Crowded { count: usize },
}

/// A law: the operation's keys and numbers have 64 bits, and its text at most 200 bytes.
pub fn fits(op: &Op)
    ensures { fits_op op.now ≡ true }
{
    match op {
        Op::Get(_) => {}
        Op::Put(key, value) => {
            let _key = *key;
            value.fits();
        }
        Op::Del(key) => {
            let _key = *key;
        }
        Op::Scan(_, _) => {}
        Op::Add(key, by) => {
            let _key = *key;
            let _by = *by;
        }
    }
}

/// A copy of an answer.
fn copied(answer: &Answer) -> Result<Answer, AllocError>
    ensures { IfOk result (λ copy. copy ≡ answer.now) }
{
    answer.clone()
}

impl<S: Store + Drop, L: Locks + Drop> ShardTx<S, L> {
    /// Does what was granted; `stage` is how far the part here is. Where there is no memory, what was reserved for it is given back.
    fn grant(
        &mut self,
        alloc: Global,
        stage: Option<Stage>,
        tx: TxId,
        birth: Birth,
        op: &Op,
        plan: Plan,
        violated: &[TxId],
    ) -> Result<Attempt, Memory>
        requires stage { stage ≡ stage_in self.old.local tx }
        requires plan { IsPlanOf op.now (self.old.local).records plan }
        requires work { may_work (stage_in self.old.local tx) ≡ true }
        requires violated { violated.now ≡ violated_here self.old.local tx op.now }
        requires few { length (undecided_with self.old.local tx violated.now) ≤ 1024 }
        requires name { tx_has_spelling tx ≡ true }
        ensures ok { IfOk result (λ a. ComesTo (OpAnswers plan.answer (performed tx birth op.now self.old.local)) tx self.old a self.new) }
        ensures err { OnErr result (IsSameBut self.old self.old.local self.new) }
        ensures room { KeepsSpare self.old self.new }
        ensures given_back { KeepsSpare self.new self.old }
        ensures pairs_room { self.old.pairs_room ≤ self.new.pairs_room }
        ensures pairs_given_back { self.new.pairs_room ≤ self.old.pairs_room }
    {
        performed_by_plan();
        fits(op);
        let Ok(copy) = copied(&plan.answer) else {
            return Err(Memory);
        };
        let room = self.buffer.room();
        let pairs = self.deps.room();
        match self.perform(alloc, stage, tx, birth, &plan, violated) {
            Ok(()) => Ok(Attempt::Answered {
                answer: plan.answer,
                copy,
            }),
            Err(memory) => {
                self.trim_to(room, pairs);
                Err(memory)
            }
        }
    }

    /// An operation of a transaction with this birth; `seen` is the epoch that its session was answered here at its first touch, none at the
    /// first; `stage` is how far the part here is. It comes to what the protocol says, and leaves the state that the protocol says; a part that
    /// dies is still to be rolled back. After a quiet answer, and where there is no memory, all is as before.
    pub(crate) fn attempt(
        &mut self,
        alloc: Global,
        stage: Option<Stage>,
        tx: TxId,
        birth: Birth,
        seen: Option<u64>,
        op: &Op,
    ) -> Result<Attempt, Memory>
        requires stage { stage ≡ stage_in self.old.local tx }
        requires name { tx_has_spelling tx ≡ true }
        ensures ok { IfOk result (λ a. ComesTo (op_reply self.old.shard self.old.local tx birth seen op.now) tx self.old a self.new) }
        ensures err { OnErr result (IsSameBut self.old self.old.local self.new) }
        ensures room { KeepsSpare self.old self.new }
        ensures given_back { KeepsSpare self.new self.old }
        ensures pairs_room { self.old.pairs_room ≤ self.new.pairs_room }
        ensures pairs_given_back { self.new.pairs_room ≤ self.old.pairs_room }
    {
        let found = match self.judge(alloc, stage, tx, birth, seen, op) {
            Ok(found) => found,
            Err(memory) => return Err(memory),
        };
        match found {
            Judged::Grant { plan, violated } => {
                self.grant(alloc, stage, tx, birth, op, plan, &violated)
            }
            Judged::Wait { younger } => Ok(Attempt::Wait { younger }),
            Judged::Crowded { count } => Ok(Attempt::Crowded { count }),
            Judged::Dead(cause) => Ok(Attempt::Dead(cause)),
            Judged::Dying(cause) => Ok(Attempt::Dying(cause)),
        }
    }
}
