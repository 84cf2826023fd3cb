//! Requests: a client asks the home shard to commit.
ghost use Rattle.std.specs.Prelude.{◌≡◌, ◌<◌, ◌++◌, true, map, IfOk, OnOk, OnErr, Some};
ghost use Rattle.std.specs.List.{AllByRecursion};
ghost use Rattle.std.specs.List.Sorted.{IsStrictlySortedBy};
ghost use Rattle.std.specs.Ordering.{nat_cmp};
ghost use Rattle.clv_base.specs.declared.state.Stage.TheVariants.{Active};
ghost use Rattle.clv_base.specs.FileRules.{tx_has_spelling};
ghost use Rattle.clv_base.specs.Orders.{nat_in};
ghost use Rattle.clv_base.specs.State.{with_local};
ghost use Rattle.clv_base.specs.Undo.{stage_of as stage_in};
ghost use Rattle.clv_base.specs.Coordinator.{others, prepares as asking};
ghost use Rattle.clv_base.specs.OneShard.{close_part as closed_by, seen_fits};
ghost use Rattle.clv_base.specs.Events.{finish, Does, is_alone, epoch_in as epoch_among, coordinate, request_event};
ghost use Rattle.due_step.specs.Ready.{IsReady};
ghost use Rattle.shard_core.specs.Requesting.{requested, gone_answer};
ghost use Rattle.shard_core.specs.Whole.{IsAtRest};

use crate::answering::note;
use crate::closing::{close_noted, make_room};
use crate::reminding::push_these;
use crate::shard::ShardCore;
use clv_base::causes::AbortCause;
use clv_base::lists::Touched;
use clv_base::messages::Message;
use clv_base::names::TxId;
use clv_base::state::Stage;
use due_step::settle_due;
use lock_table::Locks;
use ordered_store::Store;
use std::alloc::{AllocError, Global};
use txn_core::Memory;

/// What a request is answered.
#[derive(Clone, Copy, PartialEq, Eq)]
pub enum RequestAnswer {
    /// It stands.
    Stands,
    /// The transaction is aborted.
    Fails(AbortCause),
}

/// The epoch that is named with the shard.
fn epoch_in(shard: u32, touched: &[(u32, u64)]) -> Option<u64>
    ensures { result ≡ epoch_among shard touched.now }
{
    for part in touched {
        if shard == part.0 {
            return Some(part.1);
        }
    }
    None
}

/// Whether no other shard is touched.
fn is_only(shard: u32, touched: &[(u32, u64)]) -> bool
    ensures { result ≡ is_alone (others shard touched.now) }
{
    for part in touched {
        if part.0 != shard {
            return false;
        }
    }
    true
}

/// What a request is answered where the part is gone: it stands where the part was finished, and fails by the abort that took it away.
fn answer_gone(tx: TxId, doom: Option<TxId>) -> RequestAnswer
    ensures { result ≡ gone_answer tx doom }
{
    match doom {
        None => RequestAnswer::Stands,
        Some(doom) if tx == doom => RequestAnswer::Fails(AbortCause::Asked),
        Some(doom) => RequestAnswer::Fails(AbortCause::Predecessor { tx: doom }),
    }
}

/// A Prepare for each other touched shard.
fn prepares(
    alloc: Global,
    shard: u32,
    tx: TxId,
    touched: &[(u32, u64)],
) -> Result<Vec<Message>, AllocError>
    ensures { IfOk result (λ list. list.items ≡ asking shard tx touched.now) }
{
    let mut list = Vec::new(alloc);
    for part in touched {
        if part.0 != shard {
            list.push(Message::Prepare {
                to: part.0,
                tx,
                home: shard,
                seen: part.1,
            })?;
        }
    }
    Ok(list)
}

impl<S: Store + Drop, L: Locks + Drop> ShardCore<S, L> {
    /// The active part is closed, the request is kept and the others are asked, before what is due then is done. Where there is no memory all stays.
    fn request_active(&mut self, alloc: Global, tx: TxId, touched: Touched) -> Result<(), Memory>
        requires rest { IsAtRest self.old }
        requires active { stage_in (self.old.shard).local tx ≡ Some Active }
        requires name { tx_has_spelling tx ≡ true }
        requires rising { IsStrictlySortedBy nat_cmp (map (λ t. t.0) touched) }
        requires low { AllByRecursion (λ t. t.0 < 16) touched }
        requires own { nat_in (self.old.shard).shard (map (λ t. t.0) touched) ≡ true }
        ensures ready { OnOk result (IsReady self.new.shard self.new.candidates self.new.limit) }
        ensures finished { OnOk result (finish self.new.shard ≡ finish (coordinate tx touched (with_local (closed_by tx (self.old.shard).shard (is_alone (others (self.old.shard).shard touched))) self.old.shard))) }
        ensures err { OnErr result (self.new.shard ≡ self.old.shard) }
        ensures still { OnErr result (IsAtRest self.new) }
    {
        let home = self.shard;
        let alone = is_only(home, touched.as_slice());
        let plan = match self.transactions.plan_closing(alloc, tx, alone) {
            Ok(plan) => plan,
            Err(memory) => return Err(memory),
        };
        let messages = match prepares(alloc, home, tx, touched.as_slice()) {
            Ok(messages) => messages,
            Err(_) => return Err(Memory),
        };
        match make_room(
            3,
            messages.len(),
            &mut self.transactions,
            &mut self.prepares,
            &mut self.outbox,
            &mut self.candidates,
        ) {
            Ok(()) => {}
            Err(memory) => return Err(memory),
        }
        match self.coordinator.ask_commit(tx, touched) {
            Ok(()) => {}
            Err(_) => return Err(Memory),
        }
        push_these(&mut self.outbox, &messages);
        close_noted(
            tx,
            home,
            alone,
            plan,
            &mut self.transactions,
            &mut self.prepares,
            &mut self.candidates,
        );
        Ok(())
    }

    /// The request is kept and the others are asked, before what is due then is done. Where there is no memory all stays.
    fn request_absent(&mut self, alloc: Global, tx: TxId, touched: Touched) -> Result<(), Memory>
        requires rest { IsAtRest self.old }
        requires name { tx_has_spelling tx ≡ true }
        requires rising { IsStrictlySortedBy nat_cmp (map (λ t. t.0) touched) }
        requires low { AllByRecursion (λ t. t.0 < 16) touched }
        requires own { nat_in (self.old.shard).shard (map (λ t. t.0) touched) ≡ true }
        ensures ready { OnOk result (IsReady self.new.shard self.new.candidates self.new.limit) }
        ensures finished { OnOk result (finish self.new.shard ≡ finish (coordinate tx touched self.old.shard)) }
        ensures err { OnErr result (self.new.shard ≡ self.old.shard) }
        ensures still { OnErr result (IsAtRest self.new) }
    {
        let messages = match prepares(alloc, self.shard, tx, touched.as_slice()) {
            Ok(messages) => messages,
            Err(_) => return Err(Memory),
        };
        match make_room(
            2,
            messages.len(),
            &mut self.transactions,
            &mut self.prepares,
            &mut self.outbox,
            &mut self.candidates,
        ) {
            Ok(()) => {}
            Err(memory) => return Err(memory),
        }
        match self.coordinator.ask_commit(tx, touched) {
            Ok(()) => {}
            Err(_) => return Err(Memory),
        }
        push_these(&mut self.outbox, &messages);
        note(tx, &self.transactions, &mut self.candidates);
        Ok(())
    }

    /// A request at the transaction's home, with the shards that it touched, each with the epoch that its session has seen, and then all that is
    /// due. It fails where this shard's epoch is another than the one seen, or an abort took the part away; then, and where the part is closed or
    /// finished already, all stays. An active part is closed. Where there is no memory all stays.
    pub fn request(
        &mut self,
        alloc: Global,
        tx: TxId,
        touched: Touched,
    ) -> Result<RequestAnswer, Memory>
        requires rest { IsAtRest self.old }
        requires name { tx_has_spelling tx ≡ true }
        requires rising { IsStrictlySortedBy nat_cmp (map (λ t. t.0) touched) }
        requires low { AllByRecursion (λ t. t.0 < 16) touched }
        requires own { nat_in (self.old.shard).shard (map (λ t. t.0) touched) ≡ true }
        ensures ok { IfOk result (λ r. request_event self.old.shard tx touched (seen_fits ((self.old.shard).local).epoch (epoch_among (self.old.shard).shard touched)) ≡ Does (requested r) self.new.shard) }
        ensures err { OnErr result (self.new.shard ≡ self.old.shard) }
        ensures still { IsAtRest self.new }
    {
        let now = self.epoch();
        let seen = epoch_in(self.shard, touched.as_slice()).unwrap_or(now);
        if seen != now {
            return Ok(RequestAnswer::Fails(AbortCause::Restarted {
                shard: self.shard,
                seen,
                now,
            }));
        }
        match self.stage_of(tx) {
            Some(Stage::Gone { doom }) => Ok(answer_gone(tx, doom)),
            Some(Stage::Closed) => Ok(RequestAnswer::Stands),
            Some(Stage::Active) => {
                match self.request_active(alloc, tx, touched) {
                    Ok(()) => {}
                    Err(memory) => return Err(memory),
                }
                settle_due(self);
                self.give_back_much(alloc);
                Ok(RequestAnswer::Stands)
            }
            None => {
                match self.request_absent(alloc, tx, touched) {
                    Ok(()) => {}
                    Err(memory) => return Err(memory),
                }
                settle_due(self);
                self.give_back_much(alloc);
                Ok(RequestAnswer::Stands)
            }
        }
    }
}
