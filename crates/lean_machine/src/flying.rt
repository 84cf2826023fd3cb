//! The gate leaves for a flush.
ghost use Rattle.std.specs.Prelude.{◌≡◌, Option};
ghost use Rattle.clv_base.specs.declared.events.Entry.{Entry};
ghost use Rattle.clv_base.specs.declared.events.Event.TheVariants.{FlushOut};
ghost use Rattle.clv_base.specs.Events.{step};
ghost use Rattle.machine_calls.specs.Flights.{outcome_in, Departs};
ghost use Rattle.machine_calls.specs.Steps.{Tells};

use crate::forgetter::Forgetter;
use crate::machine::LeanMachine;
use clv_base::events::Outcome;
use ended_laws::requests::spent_are_not_missed;
use machine_calls::{Flier, Flight, StepError};
use std::alloc::Global;

impl<M: Forgetter + Flier> LeanMachine<M> {
    /// Begins a flush: the gate leaves with the next batch. There is a flight exactly where the outcome is `Out`.
    pub fn take_flight(
        &mut self,
        alloc: Global,
        clock: u64,
        walker: u32,
    ) -> Result<(Outcome, Option<Flight<M::Gate>>), StepError>
        ensures told { (made : Option Entry) × Tells (step self.old.shard clock walker FlushOut) self.old.shard clock walker FlushOut (outcome_in result) self.new.shard made }
        ensures flight { Departs self.new.shard self.old.gate self.new.gate result }
    {
        spent_are_not_missed();
        self.machine.take_flight(alloc, clock, walker)
    }
}
