// The gate of a shard that is down, and its restart.
ghost use Rattle.std.specs.Prelude.{◌≡◌, true, false, Option, Some, None, IfOk, IfErr, OnOk};
ghost use Rattle.clv_base.specs.declared.events.Entry.{Entry};
ghost use Rattle.clv_base.specs.declared.events.Event.TheVariants.{Restart};
ghost use Rattle.clv_base.specs.Restarts.{misfit as misfit_of};
ghost use Rattle.machine_calls.specs.Steps.{Tells};
ghost use Rattle.machine_calls.specs.Restored.{IsRestored, revives, down_gate_of, gate_left, error_in};

use crate::machine::{Machine, StepError};
use clv_base::events::Outcome;
use clv_base::logs::LogRecord;
use log_buffer::LogBuffer;
use shard_recovery::Recovered;
use std::alloc::{AllocError, Global};

/// A machine that is restarted after it went down.
pub trait Restarter: Machine {
    /// Takes the gate of a shard that is down. None where the shard is up or its gate was taken. Takes no memory.
    fn down_gate(&mut self) -> Option<Self::Gate>
        ensures gate { result ≡ down_gate_of (Self.shard self.old).is_up (Self.gate self.old) }
        ensures rest { Self.gate self.new ≡ gate_left (Self.shard self.old).is_up (Self.gate self.old) }
        ensures shard { Self.shard self.new ≡ Self.shard self.old };

    /// Puts it back. Takes no memory.
    fn keep_gate(&mut self, gate: Self::Gate)
        requires down { (Self.shard self.old).is_up ≡ false }
        requires away { Self.gate self.old ≡ None }
        ensures gate { Self.gate self.new ≡ Some gate }
        ensures shard { Self.shard self.new ≡ Self.shard self.old };

    /// The first LSN by which these records aren't a log that restarts with this epoch may leave; none where they are one.
    fn misfit(
        &self,
        alloc: Global,
        buffer: &LogBuffer<LogRecord>,
        epoch: u64,
    ) -> Result<Option<u64>, AllocError>
        ensures { IfOk result (λ first. first ≡ misfit_of (Self.shard self.now) buffer.now.records epoch) };

    /// The shard is up again, with this gate, these records and what recovery found. The gate comes back where it isn't.
    fn revive(
        &mut self,
        alloc: Global,
        gate: Self::Gate,
        store: Self::Store,
        recovered: Recovered,
        epoch: u64,
        clock: u64,
        walker: u32,
    ) -> Result<Outcome, (StepError, Self::Gate)>
        requires down { (Self.shard self.old).is_up ≡ false }
        requires away { Self.gate self.old ≡ None }
        requires restored { IsRestored (Self.shard self.old).shard (Self.shard self.old).run epoch (Self.Store.records store) recovered }
        requires fits { misfit_of (Self.shard self.old) recovered.buffer.records epoch ≡ None }
        ensures told { (made : Option Entry) × Tells (revives (Self.shard self.old) clock walker epoch recovered.buffer.records) (Self.shard self.old) clock walker Restart (error_in result) (Self.shard self.new) made }
        ensures up { OnOk result (Self.gate self.new ≡ Some gate) }
        ensures back { IfErr result (λ e. (e.1 ≡ gate) × (Self.gate self.new ≡ None)) };
}
