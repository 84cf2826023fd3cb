// Events that are one call of the machine.
ghost use Rattle.std.specs.Prelude.{◌≡◌, true, IfOk, IfSome};
ghost use Rattle.clv_base.specs.Events.{step as step_of};
ghost use Rattle.clv_base.specs.Journals.{has_no_equal_active_birth};
ghost use Rattle.machine_calls.specs.Events.{is_stepped, event_fits, sends_fit};
ghost use Rattle.crash_laws.specs.Moves.{Moves};
ghost use Rattle.crash_laws.specs.Fronts.{FrontsFit};
ghost use Rattle.interleaving_core.specs.Seated.{IsSeated};

use crate::ListGate;
use crate::seat::Seat;
use clv_base::events::{Event, Outcome};
use machine_calls::{Machine, StepError};
use std::alloc::{AllocError, Global};

/// One event but those of a flush and a restart, by a walker with this clock: the outcome of its entry, or none where none is made. An `Err` is want of
/// memory.
pub fn step<M: Machine<Gate = ListGate>>(
    seat: &mut Seat<M>,
    alloc: Global,
    clock: u64,
    walker: u32,
    event: Event,
) -> Result<Option<Outcome>, AllocError>
    requires seated { IsSeated (M.shard seat.old.machine) (M.gate seat.old.machine) seat.old.air }
    requires fronts { FrontsFit (M.shard seat.old.machine) }
    requires stepped { is_stepped event ≡ true }
    requires fits { event_fits (M.shard seat.old.machine).shard event ≡ true }
    requires birth { (M.shard seat.old.machine).is_up ≡ true → has_no_equal_active_birth (M.shard seat.old.machine) event ≡ true }
    ensures moves { IfOk result (λ made. Moves (step_of (M.shard seat.old.machine) clock walker event) (M.shard seat.old.machine) made (M.shard seat.new.machine)) }
    ensures sends { IfOk result (λ made. IfSome made (λ outcome. sends_fit outcome ≡ true)) }
    ensures seated { IfOk result (λ made. IsSeated (M.shard seat.new.machine) (M.gate seat.new.machine) seat.new.air) }
{
    let before = seat.machine.entries();
    let answer = seat.machine.step(alloc, clock, walker, event);
    let is_made = seat.machine.entries() != before;
    match answer {
        Ok(outcome) if is_made => Ok(Some(outcome)),
        Ok(_) | Err(StepError::Worn { .. }) => Ok(None),
        Err(StepError::Memory) => Err(AllocError),
    }
}
