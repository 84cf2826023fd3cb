// The two events of a flush.
ghost use Rattle.std.specs.Prelude.{◌≡◌, ◌<◌, ◌+◌, ◌^◌, true, false, Option, Some, None, IfOk, IfSome};
ghost use Rattle.clv_base.specs.declared.events.Event.TheVariants.{FlushOut};
ghost use Rattle.clv_base.specs.Events.{step as step_of, land as land_of};
ghost use Rattle.machine_calls.specs.Events.{sends_fit};
ghost use Rattle.crash_laws.specs.Moves.{Moves};
ghost use Rattle.crash_laws.specs.Fronts.{FrontsFit, LandsBy};
ghost use Rattle.interleaving_core.specs.Seated.{IsSeated, IsAway};
ghost use Rattle.interleaving_core.specs.declared.seat.Air.TheVariants.{Home, Lost};

use crate::ListGate;
use crate::seat::{Air, Seat, let_go};
use clv_base::events::Outcome;
use machine_calls::{Flier, Flight, Machine, StepError};
use std::alloc::{AllocError, Global};
use std::mem::replace;

/// The gate leaves with the next batch, by a walker with this clock: the outcome of its entry, or none where none is made. An `Err` is want of memory.
pub fn flush_out<M: Flier + Machine<Gate = ListGate>>(
    seat: &mut Seat<M>,
    alloc: Global,
    clock: u64,
    walker: u32,
) -> Result<Option<Outcome>, AllocError>
    requires seated { IsSeated (M.shard seat.old.machine) (M.gate seat.old.machine) seat.old.air }
    requires fronts { FrontsFit (M.shard seat.old.machine) }
    ensures sends { IfOk result (λ made. IfSome made (λ outcome. sends_fit outcome ≡ true)) }
    ensures moves { IfOk result (λ made. Moves (step_of (M.shard seat.old.machine) clock walker FlushOut) (M.shard seat.old.machine) made (M.shard seat.new.machine)) }
    ensures seated { IfOk result (λ made. IsSeated (M.shard seat.new.machine) (M.gate seat.new.machine) seat.new.air) }
{
    match seat.machine.take_flight(alloc, clock, walker) {
        Ok(taken) => {
            let (outcome, flight) = taken;
            match flight {
                Some(flight) => {
                    let_go(replace(&mut seat.air, Air::Away(flight)));
                    Ok(Some(outcome))
                }
                None => Ok(None),
            }
        }
        Err(StepError::Worn { .. }) => Ok(None),
        Err(StepError::Memory) => Err(AllocError),
    }
}

// The batch is pushed, and the gate comes home.
fn arrive<M: Flier + Machine<Gate = ListGate>>(
    machine: &mut M,
    flight: Flight<ListGate>,
    clock: u64,
    walker: u32,
) -> Result<Outcome, AllocError>
    requires up { (M.shard machine.old).is_up ≡ true }
    requires away { IsAway (M.shard machine.old) flight }
    requires fronts { FrontsFit (M.shard machine.old) }
    requires lands { (M.shard machine.old).last < 2 ^ 48 }
    requires clock { clock < 2 ^ 48 + 15 }
    ensures sends { IfOk result (λ made. sends_fit made ≡ true) }
    ensures moves { IfOk result (λ made. Moves (land_of (M.shard machine.old) clock walker true) (M.shard machine.old) (Some made) (M.shard machine.new)) }
    ensures seated { IfOk result (λ made. IsSeated (M.shard machine.new) (M.gate machine.new) Home) }
{
    let Flight {
        mut gate,
        as_taken,
        payload,
        upto,
    } = flight;
    let Ok(()) = gate.push(payload.as_slice()) else {
        return Err(AllocError);
    };
    let flight = Flight {
        gate,
        as_taken,
        payload,
        upto,
    };
    Ok(machine.land(flight, true, clock, walker))
}

// The flush fails, and the shard goes down. What comes back are the bytes of the batch, which may be on the disk.
fn fail<M: Flier + Machine<Gate = ListGate>>(
    machine: &mut M,
    alloc: Global,
    flight: Flight<ListGate>,
    clock: u64,
    walker: u32,
) -> (Outcome, Vec<u8>)
    requires up { (M.shard machine.old).is_up ≡ true }
    requires away { IsAway (M.shard machine.old) flight }
    requires lands { (M.shard machine.old).last < 2 ^ 48 }
    requires clock { clock < 2 ^ 48 + 15 }
    ensures sends { sends_fit result.0 ≡ true }
    ensures moves { Moves (land_of (M.shard machine.old) clock walker false) (M.shard machine.old) (Some result.0) (M.shard machine.new) }
    ensures seated { IsSeated (M.shard machine.new) (M.gate machine.new) (Lost result.1) }
{
    let Flight {
        mut gate,
        as_taken,
        payload,
        upto,
    } = flight;
    gate.fail();
    let flight = Flight {
        gate,
        as_taken,
        payload: Vec::new(alloc),
        upto,
    };
    (machine.land(flight, false, clock, walker), payload)
}

/// The flush that is under way ends, by a walker with this clock: what was in flight is durable where it is `kept`, else the flush fails. The outcome of its
/// entry, or none where nothing is in flight or the shard is down. An `Err` is want of memory.
pub fn flush_in<M: Flier + Machine<Gate = ListGate>>(
    seat: &mut Seat<M>,
    alloc: Global,
    clock: u64,
    walker: u32,
    kept: bool,
) -> Result<Option<Outcome>, AllocError>
    requires seated { IsSeated (M.shard seat.old.machine) (M.gate seat.old.machine) seat.old.air }
    requires fronts { FrontsFit (M.shard seat.old.machine) }
    requires lands { LandsBy clock (M.shard seat.old.machine) }
    ensures sends { IfOk result (λ made. IfSome made (λ outcome. sends_fit outcome ≡ true)) }
    ensures moves { IfOk result (λ made. Moves (land_of (M.shard seat.old.machine) clock walker kept) (M.shard seat.old.machine) made (M.shard seat.new.machine)) }
    ensures seated { IfOk result (λ made. IsSeated (M.shard seat.new.machine) (M.gate seat.new.machine) seat.new.air) }
{
    if seat.machine.is_down() {
        return Ok(None);
    }
    match replace(&mut seat.air, Air::Home) {
        Air::Home => Ok(None),
        Air::Away(flight) if kept => {
            let outcome = arrive(&mut seat.machine, flight, clock, walker)?;
            Ok(Some(outcome))
        }
        Air::Away(flight) => {
            let (outcome, payload) = fail(&mut seat.machine, alloc, flight, clock, walker);
            let_go(replace(&mut seat.air, Air::Lost(payload)));
            Ok(Some(outcome))
        }
        Air::Lost(_) => unreachable!(),
    }
}
