//! Any event but those of a flush and a restart.
ghost use Rattle.std.specs.Prelude.{◌≡◌, true, Option, IfOk};
ghost use Rattle.clv_base.specs.declared.events.Entry.{Entry as Made};
ghost use Rattle.clv_base.specs.Events.{step as step_of};
ghost use Rattle.clv_base.specs.Journals.{has_no_equal_active_birth};
ghost use Rattle.machine_calls.specs.Events.{is_stepped, event_fits, sends_fit};
ghost use Rattle.machine_calls.specs.Steps.{Tells};
ghost use Rattle.lean_machine.specs.Lean.{acknowledged_in};

use crate::forgetter::Forgetter;
use crate::machine::LeanMachine;
use clv_base::events::{Event, Outcome};
use clv_base::messages::Message;
use clv_base::names::TxId;
use ended_laws::requests::spent_are_not_missed;
use machine_calls::StepError;
use std::alloc::Global;

/// Whose END an event may write: an acknowledgement that comes may be the last one.
fn may_end(event: &Event) -> Option<TxId>
    ensures { result ≡ acknowledged_in event.now }
{
    match event {
        Event::Deliver {
            message: Message::Done { tx, .. },
            ..
        } => Some(*tx),
        _ => None,
    }
}

impl<M: Forgetter> LeanMachine<M> {
    /// One event, before anything is forgotten.
    fn step_kept(
        &mut self,
        alloc: Global,
        clock: u64,
        walker: u32,
        event: Event,
    ) -> Result<Outcome, StepError>
        requires stepped { is_stepped event ≡ true }
        requires fits { event_fits (self.old.shard).shard event ≡ true }
        requires birth { (self.old.shard).is_up ≡ true → has_no_equal_active_birth self.old.shard event ≡ true }
        ensures told { (made : Option Made) × Tells (step_of self.old.shard clock walker event) self.old.shard clock walker event result self.new.shard made }
        ensures gate { self.new.gate ≡ self.old.gate }
        ensures sends { IfOk result (λ o. sends_fit o ≡ true) }
    {
        spent_are_not_missed();
        self.machine.step(alloc, clock, walker, event)
    }

    /// One event, or a quiet answer. What it sends may be delivered.
    pub fn step_event(
        &mut self,
        alloc: Global,
        clock: u64,
        walker: u32,
        event: Event,
    ) -> Result<Outcome, StepError>
        requires stepped { is_stepped event ≡ true }
        requires fits { event_fits (self.old.shard).shard event ≡ true }
        requires birth { (self.old.shard).is_up ≡ true → has_no_equal_active_birth self.old.shard event ≡ true }
        ensures told { (made : Option Made) × Tells (step_of self.old.shard clock walker event) self.old.shard clock walker event result self.new.shard made }
        ensures gate { self.new.gate ≡ self.old.gate }
        ensures sends { IfOk result (λ o. sends_fit o ≡ true) }
    {
        let ended = may_end(&event);
        let outcome = self.step_kept(alloc, clock, walker, event);
        if let Some(tx) = ended {
            self.forget(tx);
        }
        outcome
    }
}
