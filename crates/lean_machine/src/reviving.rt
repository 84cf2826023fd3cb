//! The restart of a shard that went down.
ghost use Rattle.std.specs.Prelude.{◌≡◌, false, Option, Some, None, IfOk, IfErr, OnOk};
ghost use Rattle.clv_base.specs.declared.events.Entry.{Entry};
ghost use Rattle.clv_base.specs.declared.events.Event.TheVariants.{Restart};
ghost use Rattle.clv_base.specs.Restarts.{misfit as misfit_of};
ghost use Rattle.machine_calls.specs.Steps.{Tells};
ghost use Rattle.machine_calls.specs.Restored.{IsRestored, revives, error_in};

use crate::forgetter::Forgetter;
use crate::machine::LeanMachine;
use clv_base::events::Outcome;
use clv_base::logs::LogRecord;
use log_buffer::LogBuffer;
use machine_calls::{Restarter, StepError};
use quiet_list::Told;
use shard_recovery::Recovered;
use std::alloc::{AllocError, Global};

impl<M: Forgetter + Restarter> LeanMachine<M> {
    /// The first LSN by which these records aren't a log that restarts with this epoch may leave; none where they are one.
    pub fn misfit(
        &self,
        alloc: Global,
        buffer: &LogBuffer<LogRecord>,
        epoch: u64,
    ) -> Result<Option<u64>, AllocError>
        ensures { IfOk result (λ first. first ≡ misfit_of self.now.shard buffer.now.records epoch) }
    {
        self.machine.misfit(alloc, buffer, epoch)
    }

    /// The shard is up again, with this gate, these records and what recovery found, of whose rows none is forgotten. The gate comes back where it isn't.
    pub fn revive(
        &mut self,
        alloc: Global,
        gate: M::Gate,
        store: M::Store,
        recovered: Recovered,
        epoch: u64,
        clock: u64,
        walker: u32,
    ) -> Result<Outcome, (StepError, M::Gate)>
        requires down { (self.old.shard).is_up ≡ false }
        requires away { self.old.gate ≡ None }
        requires restored { IsRestored (self.old.shard).shard (self.old.shard).run epoch (M.Store.records store) recovered }
        requires fits { misfit_of self.old.shard recovered.buffer.records epoch ≡ None }
        ensures told { (made : Option Entry) × Tells (revives self.old.shard clock walker epoch recovered.buffer.records) self.old.shard clock walker Restart (error_in result) self.new.shard made }
        ensures up { OnOk result (self.new.gate ≡ Some gate) }
        ensures back { IfErr result (λ e. (e.1 ≡ gate) × (self.new.gate ≡ None)) }
    {
        match self
            .machine
            .revive(alloc, gate, store, recovered, epoch, clock, walker)
        {
            Ok(outcome) => {
                self.forgotten = Told::new();
                Ok(outcome)
            }
            Err(back) => Err(back),
        }
    }
}

impl<M: Forgetter + Restarter> Restarter for LeanMachine<M> {
    fn down_gate(&mut self) -> Option<M::Gate> {
        self.machine.down_gate()
    }

    fn keep_gate(&mut self, gate: M::Gate) {
        self.machine.keep_gate(gate)
    }

    fn misfit(
        &self,
        alloc: Global,
        buffer: &LogBuffer<LogRecord>,
        epoch: u64,
    ) -> Result<Option<u64>, AllocError> {
        LeanMachine::misfit(self, alloc, buffer, epoch)
    }

    fn revive(
        &mut self,
        alloc: Global,
        gate: M::Gate,
        store: M::Store,
        recovered: Recovered,
        epoch: u64,
        clock: u64,
        walker: u32,
    ) -> Result<Outcome, (StepError, M::Gate)> {
        LeanMachine::revive(self, alloc, gate, store, recovered, epoch, clock, walker)
    }
}
