//! Questions and decisions that are delivered.
ghost use Rattle.std.specs.Prelude.{◌≡◌, [], ◌∷◌, true, IfOk, OnOk, OnErr};
ghost use Rattle.clv_base.specs.declared.events.Outcome.TheVariants.{Taken as TakenOutcome};
ghost use Rattle.clv_base.specs.declared.messages.Message.TheVariants.{Done as DoneMessage};
ghost use Rattle.clv_base.specs.Facts.{facts_of};
ghost use Rattle.clv_base.specs.FileRules.{tx_has_spelling};
ghost use Rattle.clv_base.specs.Orders.{tx_in};
ghost use Rattle.clv_base.specs.Participant.{taken_by};
ghost use Rattle.clv_base.specs.Due.{send};
ghost use Rattle.clv_base.specs.Events.{Does, finish, decided, on_ask, on_decide};
ghost use Rattle.due_step.specs.Noting.{known_keys};
ghost use Rattle.shard_core.specs.Hearing.{Hears};
ghost use Rattle.shard_core.specs.Whole.{IsAtRest};

use crate::shard::ShardCore;
use clv_base::messages::Message;
use clv_base::names::TxId;
use clv_base::state::Taken;
use lock_table::Locks;
use ordered_store::Store;
use txn_core::Memory;

impl<S: Store + Drop, L: Locks + Drop> ShardCore<S, L> {
    /// A question of a shard about the transaction is taken: the answer, if there is one, waits to be sent. Where there is no memory for it all
    /// stays.
    pub fn take_question(&mut self, tx: TxId, from: u32) -> Result<(), Memory>
        requires { IsAtRest self.old }
        ensures taken { OnOk result (on_ask self.old.shard tx from ≡ Does TakenOutcome self.new.shard) }
        ensures err { OnErr result (self.new ≡ self.old) }
        ensures rest { IsAtRest self.new }
    {
        let Some(commit) = self.answer_for(tx) else {
            self.settled();
            return Ok(());
        };
        let home = self.number();
        self.tell(Message::Decide {
            to: from,
            tx,
            home,
            commit,
        })
    }

    /// A decision on a transaction that is known is carried out. Where there is no memory all stays; an abort takes none.
    fn carry_out(&mut self, tx: TxId, commit: bool) -> Result<(), Memory>
        requires rest { IsAtRest self.old }
        requires known { tx_in tx (known_keys self.old.shard) ≡ true }
        requires name { tx_has_spelling tx ≡ true }
        ensures taken { OnOk result (self.new.shard ≡ finish (decided self.old.shard tx commit)) }
        ensures err { OnErr result (self.new ≡ self.old) }
        ensures rest { IsAtRest self.new }
    {
        if commit {
            return self.take_commit(tx);
        }
        self.take_abort(tx);
        Ok(())
    }

    /// The home is told once more that the commit is durable here. Where there is no memory all stays.
    fn acknowledge(&mut self, tx: TxId, home: u32) -> Result<(), Memory>
        requires { IsAtRest self.old }
        ensures told { OnOk result (self.new.shard ≡ finish (send (DoneMessage home tx (self.old.shard).shard ∷ []) self.old.shard)) }
        ensures err { OnErr result (self.new ≡ self.old) }
        ensures rest { IsAtRest self.new }
    {
        let from = self.number();
        self.tell(Message::Done { to: home, tx, from })
    }

    /// A decision of the home is taken, and it is true: the part that waited for it carries it out, and one that has carried out a commit tells the
    /// home again. Else the decision is stale, it is false, and all stays. Where there is no memory all stays.
    pub fn take_decision(&mut self, tx: TxId, home: u32, commit: bool) -> Result<bool, Memory>
        requires rest { IsAtRest self.old }
        requires name { tx_has_spelling tx ≡ true }
        ensures ok { IfOk result (λ taken. Hears (on_decide self.old.shard tx home commit (taken_by (facts_of self.old.shard tx) commit)) self.old.shard taken self.new.shard) }
        ensures err { OnErr result (self.new ≡ self.old) }
        ensures rest { IsAtRest self.new }
    {
        match self.decision_is(tx, commit) {
            Taken::Stale => Ok(false),
            Taken::Waiting => match self.carry_out(tx, commit) {
                Ok(()) => Ok(true),
                Err(memory) => Err(memory),
            },
            Taken::Done => match self.acknowledge(tx, home) {
                Ok(()) => Ok(true),
                Err(memory) => Err(memory),
            },
        }
    }
}
