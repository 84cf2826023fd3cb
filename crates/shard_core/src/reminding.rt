//! Messages that are sent again.
ghost use Rattle.std.specs.Prelude.{◌≡◌, ◌≤◌, ◌+◌, ◌++◌, length, IfOk, OnOk, OnErr};
ghost use Rattle.std.specs.List.{filter};
ghost use Rattle.std.specs.List.Sorted.{IsStrictlySortedBy};
ghost use Rattle.clv_base.specs.Facts.{facts_of, has_durable_commit as is_durably_committed};
ghost use Rattle.clv_base.specs.Orders.{tx_cmp, tx_get};
ghost use Rattle.clv_base.specs.Coordinator.{home_reminders as reminders_of_home};
ghost use Rattle.clv_base.specs.Participant.{asks};
ghost use Rattle.clv_base.specs.Due.{send};
ghost use Rattle.clv_base.specs.Events.{finish, durable_requests, waiting_voters, reminders as reminders_of};
ghost use Rattle.two_phase_commit.specs.Voting.{asks_by};
ghost use Rattle.due_step.specs.Ready.{IsReady};
ghost use Rattle.shard_core.specs.Whole.{IsAtRest};

use crate::shard::ShardCore;
use clv_base::messages::Message;
use clv_base::names::TxId;
use due_step::{Outbox, settle_due};
use lock_table::Locks;
use ordered_store::Store;
use std::alloc::Global;
use two_phase_commit::coordinator_laws::reminders_by_waiting;
use two_phase_commit::doubts::waiting_among;
use txn_core::Memory;

/// These messages go behind the others.
fn tell_these(outbox: &mut Outbox, messages: &[Message]) -> Result<(), Memory>
    ensures ok { OnOk result (outbox.new.messages ≡ outbox.old.messages ++ messages.now) }
    ensures err { OnErr result (outbox.new ≡ outbox.old) }
    ensures room { outbox.old.room ≤ outbox.new.room }
{
    match outbox.reserve(messages.len()) {
        Ok(()) => {}
        Err(_) => return Err(Memory),
    }
    push_these(outbox, messages);
    Ok(())
}

/// These messages go behind the others, for which there is room. Takes no memory.
pub(crate) fn push_these(outbox: &mut Outbox, messages: &[Message])
    requires { length messages.now ≤ outbox.old.room }
    ensures messages { outbox.new.messages ≡ outbox.old.messages ++ messages.now }
    ensures room { outbox.old.room ≡ outbox.new.room + length messages.now }
{
    for message in messages {
        outbox.push(*message);
    }
}

impl<S: Store + Drop, L: Locks + Drop> ShardCore<S, L> {
    /// Of these transactions those whose COMMIT here is durable, in their order.
    fn durable_of(&self, alloc: Global, txs: &[TxId]) -> Result<Vec<TxId>, Memory>
        ensures { IfOk result (λ list. list.items ≡ filter (λ tx. is_durably_committed (facts_of self.now.shard tx)) txs.now) }
    {
        let mut list = Vec::new(alloc);
        for tx in txs {
            if self.has_durable_commit(*tx) {
                match list.push(*tx) {
                    Ok(()) => {}
                    Err(_) => return Err(Memory),
                }
            }
        }
        Ok(list)
    }

    /// Whether the transaction's part asks its home how it was decided.
    fn asks_home(&self, tx: TxId) -> bool
        ensures { result ≡ asks_by (facts_of self.now.shard tx) (tx_get tx (self.now.shard).voters) }
    {
        self.participant.asks_home(tx, &self.facts(tx))
    }

    /// Of these transactions those whose parts ask their homes, in their order.
    fn asking_of(&self, alloc: Global, txs: &[TxId]) -> Result<Vec<TxId>, Memory>
        ensures { IfOk result (λ list. list.items ≡ filter (λ tx. asks_by (facts_of self.now.shard tx) (tx_get tx (self.now.shard).voters)) txs.now) }
    {
        let mut list = Vec::new(alloc);
        for tx in txs {
            if self.asks_home(*tx) {
                match list.push(*tx) {
                    Ok(()) => {}
                    Err(_) => return Err(Memory),
                }
            }
        }
        Ok(list)
    }

    /// What this shard as a home sends again. It goes over the requests that wait.
    fn home_reminders(&self, alloc: Global) -> Result<Vec<Message>, Memory>
        ensures { IfOk result (λ list. list.items ≡ reminders_of_home (self.now.shard).shard (self.now.shard).requests (durable_requests self.now.shard)) }
    {
        reminders_by_waiting();
        let txs = match self.coordinator.waiting(alloc) {
            Ok(txs) => txs,
            Err(_) => return Err(Memory),
        };
        let durable = match self.durable_of(alloc, &txs) {
            Ok(durable) => durable,
            Err(memory) => return Err(memory),
        };
        match self.coordinator.reminders(alloc, &durable) {
            Ok(messages) => Ok(messages),
            Err(_) => Err(Memory),
        }
    }

    /// What the parts on this shard ask their homes. It goes over the parts that are here.
    fn questions(&self, alloc: Global) -> Result<Vec<Message>, Memory>
        ensures { IfOk result (λ list. list.items ≡ asks (self.now.shard).shard (self.now.shard).voters (waiting_voters self.now.shard)) }
    {
        waiting_among();
        self.participant.rising();
        let txs = match self.transactions.here(alloc) {
            Ok(txs) => txs,
            Err(memory) => return Err(memory),
        };
        let asking = match self.asking_of(alloc, &txs) {
            Ok(asking) => asking,
            Err(memory) => return Err(memory),
        };
        match self.participant.asks(alloc, &asking) {
            Ok(messages) => Ok(messages),
            Err(_) => Err(Memory),
        }
    }

    /// What a reminder sends again: a Prepare for each vote that is missing, a Decide for each acknowledgement of a durable commit that is missing,
    /// and then a question of each part that may be in doubt.
    pub fn reminders(&self, alloc: Global) -> Result<Vec<Message>, Memory>
        ensures { IfOk result (λ list. list.items ≡ reminders_of self.now.shard) }
    {
        let mut messages = match self.home_reminders(alloc) {
            Ok(messages) => messages,
            Err(memory) => return Err(memory),
        };
        let questions = match self.questions(alloc) {
            Ok(questions) => questions,
            Err(memory) => return Err(memory),
        };
        match messages.extend_from_slice(&questions) {
            Ok(()) => Ok(messages),
            Err(_) => Err(Memory),
        }
    }

    /// These messages wait besides, before what is due then is done. Where there is no memory all stays.
    fn tell_these_here(&mut self, messages: &[Message]) -> Result<(), Memory>
        requires { IsAtRest self.old }
        ensures ready { OnOk result (IsReady self.new.shard self.new.candidates self.new.limit) }
        ensures finished { OnOk result (finish self.new.shard ≡ finish (send messages.now self.old.shard)) }
        ensures err { OnErr result (self.new ≡ self.old) }
    {
        self.transactions.kept();
        match tell_these(&mut self.outbox, messages) {
            Ok(()) => {}
            Err(memory) => return Err(memory),
        }
        Ok(())
    }

    /// These messages wait besides, and all is done that is due then. Where there is no memory all stays.
    pub fn send_again(&mut self, messages: &[Message]) -> Result<(), Memory>
        requires { IsAtRest self.old }
        ensures told { OnOk result (self.new.shard ≡ finish (send messages.now self.old.shard)) }
        ensures err { OnErr result (self.new ≡ self.old) }
        ensures rest { IsAtRest self.new }
    {
        match self.tell_these_here(messages) {
            Ok(()) => {}
            Err(memory) => return Err(memory),
        }
        settle_due(self);
        Ok(())
    }
}
