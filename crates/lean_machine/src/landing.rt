//! The gate comes home, and the machine as those see it who flush its log.
ghost use Rattle.std.specs.Prelude.{◌≡◌, ◌<◌, ◌+◌, ◌^◌, true, Some};
ghost use Rattle.clv_base.specs.declared.events.Entry.{Entry};
ghost use Rattle.clv_base.specs.declared.events.Event.TheVariants.{FlushIn};
ghost use Rattle.clv_base.specs.Events.{land as lands};
ghost use Rattle.machine_calls.specs.Flights.{CountsPush};
ghost use Rattle.machine_calls.specs.Steps.{Made};

use crate::forgetter::Forgetter;
use crate::machine::LeanMachine;
use clv_base::events::Outcome;
use ended_laws::requests::spent_are_not_missed;
use machine_calls::{Flier, Flight, StepError};
use std::alloc::Global;

impl<M: Forgetter + Flier> LeanMachine<M> {
    /// Ends a flush, before anything is forgotten.
    fn land_kept(
        &mut self,
        flight: Flight<M::Gate>,
        pushed: bool,
        clock: u64,
        walker: u32,
    ) -> Outcome
        requires up { (self.old.shard).is_up ≡ true }
        requires flies { (self.old.shard).flight ≡ Some flight.upto }
        requires last { (self.old.shard).last < 2 ^ 48 }
        requires clock { clock < 2 ^ 48 + 15 }
        requires counts { CountsPush pushed (M.Gate.faults flight.as_taken.value) (M.Gate.faults flight.gate) }
        ensures told { (made : Entry) × Made (lands self.old.shard clock walker pushed) self.old.shard clock walker FlushIn result self.new.shard made }
        ensures gate { self.new.gate ≡ Some flight.gate }
    {
        spent_are_not_missed();
        self.machine.land(flight, pushed, clock, walker)
    }

    /// Ends a flush: the gate is home again, and the records in flight are durable exactly where they were pushed. Else the shard is down. Takes no memory.
    pub fn land(
        &mut self,
        flight: Flight<M::Gate>,
        pushed: bool,
        clock: u64,
        walker: u32,
    ) -> Outcome
        requires up { (self.old.shard).is_up ≡ true }
        requires flies { (self.old.shard).flight ≡ Some flight.upto }
        requires last { (self.old.shard).last < 2 ^ 48 }
        requires clock { clock < 2 ^ 48 + 15 }

        // It fails only where the disk did.
        requires counts { CountsPush pushed (M.Gate.faults flight.as_taken.value) (M.Gate.faults flight.gate) }
        ensures told { (made : Entry) × Made (lands self.old.shard clock walker pushed) self.old.shard clock walker FlushIn result self.new.shard made }
        ensures gate { self.new.gate ≡ Some flight.gate }
    {
        let from = self.machine.durable();
        let upto = flight.upto;
        let outcome = self.land_kept(flight, pushed, clock, walker);
        if pushed {
            self.forget_committed(from, upto);
        }
        outcome
    }
}

impl<M: Forgetter + Flier> Flier for LeanMachine<M> {
    fn take_flight(
        &mut self,
        alloc: Global,
        clock: u64,
        walker: u32,
    ) -> Result<(Outcome, Option<Flight<M::Gate>>), StepError> {
        LeanMachine::take_flight(self, alloc, clock, walker)
    }

    fn land(&mut self, flight: Flight<M::Gate>, pushed: bool, clock: u64, walker: u32) -> Outcome
        requires up { (self.old.shard).is_up ≡ true }
        requires flies { (self.old.shard).flight ≡ Some flight.upto }
        requires last { (self.old.shard).last < 2 ^ 48 }
        requires clock { clock < 2 ^ 48 + 15 }
        requires counts { CountsPush pushed (M.Gate.faults flight.as_taken.value) (M.Gate.faults flight.gate) }
        ensures told { (made : Entry) × Made (lands self.old.shard clock walker pushed) self.old.shard clock walker FlushIn result self.new.shard made }
        ensures gate { self.new.gate ≡ Some flight.gate }
    {
        LeanMachine::land(self, flight, pushed, clock, walker)
    }
}
