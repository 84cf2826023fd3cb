// A session after its walker's entries.
ghost use Rattle.std.specs.Prelude.{◌≡◌, ◌<◌, ℕ, List, Some, OnOk, IfOk};
ghost use Rattle.std.specs.List.{AllByRecursion};
ghost use Rattle.clv_base.specs.Journals.{own};
ghost use Rattle.clv_base.specs.Sessions.{SessionState, session_for, op_answered, op_in_session, back_for, back_in_session, requested, looked, after_drop, session_after};
ghost use Rattle.cluster_turns.specs.States.{session_of as session_in};

use crate::sessions::Session;
use clv_base::events::{Entry, Event, Outcome};
use clv_base::names::{Birth, TxId};
use clv_base::ops::Op;
use std::alloc::{AllocError, Global};

impl Session {
    // The transaction of an operation is the last one.
    fn follow_birth(&mut self, alloc: Global, tx: TxId, birth: Birth)
        ensures { (t : SessionState) → session_for self.old tx birth ≡ Some t → self.new ≡ t }
    {
        if self.is_last(tx) {
            return;
        }
        if self.begins(tx, birth) {
            self.begin(alloc, tx, birth);
        }
    }

    fn follow_answer(
        &mut self,
        shard: u32,
        nth: u64,
        op: &Op,
        outcome: &Outcome,
    ) -> Result<(), AllocError>
        requires { shard < 16 }
        ensures { (t : SessionState) → op_answered shard nth op.now self.old outcome.now ≡ Some t → OnOk result (self.new ≡ t) }
    {
        match outcome {
            Outcome::Answered { answer, epoch } => self.answered(shard, nth, op, answer, *epoch),
            Outcome::Dead(_) => {
                self.died(shard, nth, op);
                Ok(())
            }
            _ => Ok(()),
        }
    }

    fn follow_op(
        &mut self,
        alloc: Global,
        shard: u32,
        tx: TxId,
        birth: Birth,
        nth: u64,
        op: &Op,
        outcome: &Outcome,
    ) -> Result<(), AllocError>
        requires { shard < 16 }
        ensures { (splits : List ℕ) (seen : _) (t : SessionState) → op_in_session splits shard nth seen op.now outcome.now (session_for self.old tx birth) ≡ Some t → OnOk result (self.new ≡ t) }
    {
        self.follow_birth(alloc, tx, birth);
        self.follow_answer(shard, nth, op, outcome)
    }

    fn follow_back(
        &mut self,
        shard: u32,
        nth: u64,
        upto: u64,
        outcome: &Outcome,
    ) -> Result<(), AllocError>
        ensures { (t : SessionState) → back_in_session shard upto outcome.now (back_for self.old shard nth upto) ≡ Some t → OnOk result (self.new ≡ t) }
    {
        if !self.is_back_number(shard, nth, upto) {
            return Ok(());
        }
        self.goes_back(shard, nth, upto)?;
        match outcome {
            Outcome::Rolled => self.went_back(shard, upto),
            Outcome::Dead(_) => self.died_back(shard, upto),
            _ => {}
        }
        Ok(())
    }

    fn follow_request(&mut self, shard: u32, outcome: &Outcome)
        requires { 0 < self.old.tx.serial }
        ensures { (t : SessionState) → requested shard self.old outcome.now ≡ Some t → self.new ≡ t }
    {
        match outcome {
            Outcome::Asked => self.requested(shard),
            Outcome::Dead(_) => self.ended(),
            _ => {}
        }
    }

    fn follow_look(&mut self, outcome: &Outcome)
        requires { 0 < self.old.tx.serial }
        ensures { (t : SessionState) → looked self.old outcome.now ≡ Some t → self.new ≡ t }
    {
        match outcome {
            Outcome::Acknowledged => self.told(),
            Outcome::Aborted(_) => self.refused(),
            _ => {}
        }
    }

    fn follow_drop(&mut self)
        ensures { self.new ≡ record self.old { phase = after_drop self.old.phase } }
    {
        if self.is_touching() {
            self.ended();
        }
    }

    // One entry of the walker on a shard, which goes on the session. An `Err` is want of memory.
    fn follow(
        &mut self,
        alloc: Global,
        shard: u32,
        event: &Event,
        outcome: &Outcome,
    ) -> Result<(), AllocError>
        requires { shard < 16 }
        ensures { (splits : List ℕ) (t : SessionState) → session_after splits shard self.old event.now outcome.now ≡ Some t → OnOk result (self.new ≡ t) }
    {
        let last = self.tx;
        match event {
            Event::Op {
                tx,
                birth,
                nth,
                seen: _,
                op,
            } => return self.follow_op(alloc, shard, *tx, *birth, *nth, &op.op(), outcome),
            Event::RollTo { nth, upto, .. } => {
                return self.follow_back(shard, *nth, *upto, outcome);
            }
            Event::Request { .. } if last.serial != 0 => self.follow_request(shard, outcome),
            Event::Look { .. } if last.serial != 0 => self.follow_look(outcome),
            Event::Drop { .. } => self.follow_drop(),
            _ => {}
        }
        Ok(())
    }
}

/// The session that a walker's entries make, where they make one. It goes through the history. An `Err` is want of memory.
pub fn session_of(
    alloc: Global,
    walker: u32,
    history: &[(u32, Entry)],
) -> Result<Session, AllocError>
    requires { AllByRecursion (λ e. e.0 < 16) history.now }
    ensures { (splits : List ℕ) (t : SessionState) → session_in splits 1 walker (own walker history.now) ≡ Some t → IfOk result (λ session. session ≡ t) }
{
    let mut session = Session::new(alloc, walker);
    for placed in history {
        if placed.1.walker == walker {
            session.follow(alloc, placed.0, &placed.1.event, &placed.1.outcome)?;
        }
    }
    Ok(session)
}
