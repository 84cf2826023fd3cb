//! An operation.
ghost use Rattle.std.specs.Prelude.{◌≡◌, ◌≤◌, true, IfOk, OnErr};
ghost use Rattle.clv_base.specs.FileRules.{tx_has_spelling};
ghost use Rattle.clv_base.specs.OneShard.{op_reply};
ghost use Rattle.clv_base.specs.Undo.{stage_of as stage_in};
ghost use Rattle.txn_core.specs.State.{IsSameBut};
ghost use Rattle.txn_core.specs.Replies.{Replies};
ghost use Rattle.txn_core.specs.Sound.{KeepsSpare};

use crate::attempt::Attempt;
use crate::shard::ShardTx;
use clv_base::causes::AbortCause;
use clv_base::names::{Birth, TxId};
use clv_base::ops::{Answer, Op};
use clv_base::state::Stage;
use lock_table::{Locks, Memory};
use ordered_store::Store;
use std::alloc::Global;

/// What an operation is answered.
#[derive(Drop)]
pub enum Reply {
    /// It is done; the shard has this epoch. The answer is there twice, once for a journal, so that no memory is asked for after what was done.
    Answered {
        answer: Answer,
        copy: Answer,
        epoch: u64,
    },
    /// Its transaction is dead: no active part of it is left here.
    Dead(AbortCause),
    /// Nothing is done: this younger active transaction holds what it needs.
    Wait {
        younger: TxId,
    },
    /// Nothing is done: it would have so many undecided predecessors, which are too many.
    Crowded {
        count: usize,
    },
}

impl<S: Store + Drop, L: Locks + Drop> ShardTx<S, L> {
    /// An operation of a transaction with this birth; `seen` is the epoch that its session was answered here at its first touch, none at the
    /// first. It is answered what the protocol says, and leaves the state that the protocol says, without the ghosts that bear no lock. After a
    /// quiet answer all is as before, and where there is no memory too. `Memory` is also answered in place of a grant to a transaction that has
    /// no part here and yet a write that stands in the log, from before a restart. The room in the log beyond the undo of the parts that are here is as it
    /// was, and so is the room for dependencies.
    pub fn op(
        &mut self,
        alloc: Global,
        tx: TxId,
        birth: Birth,
        seen: Option<u64>,
        op: &Op,
    ) -> Result<Reply, Memory>
        requires { tx_has_spelling tx ≡ true }
        ensures ok { IfOk result (λ r. Replies (op_reply self.old.shard self.old.local tx birth seen op.now) self.old r self.new) }
        ensures err { OnErr result (IsSameBut self.old self.old.local self.new) }
        ensures room { KeepsSpare self.old self.new }
        ensures given_back { KeepsSpare self.new self.old }
        ensures pairs_room { self.old.pairs_room ≤ self.new.pairs_room }
        ensures pairs_given_back { self.new.pairs_room ≤ self.old.pairs_room }
    {
        let stage = self.stage_of(tx);
        self.op_of(alloc, stage, tx, birth, seen, op)
    }

    /// The same; `stage` is how far the transaction's part here is, as `stage_of` tells, so that it isn't looked up again.
    pub fn op_of(
        &mut self,
        alloc: Global,
        stage: Option<Stage>,
        tx: TxId,
        birth: Birth,
        seen: Option<u64>,
        op: &Op,
    ) -> Result<Reply, Memory>
        requires stage { stage ≡ stage_in self.old.local tx }
        requires name { tx_has_spelling tx ≡ true }
        ensures ok { IfOk result (λ r. Replies (op_reply self.old.shard self.old.local tx birth seen op.now) self.old r self.new) }
        ensures err { OnErr result (IsSameBut self.old self.old.local self.new) }
        ensures room { KeepsSpare self.old self.new }
        ensures given_back { KeepsSpare self.new self.old }
        ensures pairs_room { self.old.pairs_room ≤ self.new.pairs_room }
        ensures pairs_given_back { self.new.pairs_room ≤ self.old.pairs_room }
    {
        let attempt = match self.attempt(alloc, stage, tx, birth, seen, op) {
            Ok(attempt) => attempt,
            Err(memory) => return Err(memory),
        };
        let epoch = self.epoch;
        match attempt {
            Attempt::Answered { answer, copy } => Ok(Reply::Answered {
                answer,
                copy,
                epoch,
            }),
            Attempt::Dead(cause) => Ok(Reply::Dead(cause)),
            Attempt::Dying(cause) => {
                self.roll_back_part(tx);
                Ok(Reply::Dead(cause))
            }
            Attempt::Wait { younger } => Ok(Reply::Wait { younger }),
            Attempt::Crowded { count } => Ok(Reply::Crowded { count }),
        }
    }
}
