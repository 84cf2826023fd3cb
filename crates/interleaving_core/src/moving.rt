// One event on one shard.
ghost use Rattle.std.specs.Prelude.{◌≡◌, true, not, None, IfOk, IfSome};
ghost use Rattle.clv_base.specs.Core.{answer_by};
ghost use Rattle.clv_base.specs.Journals.{has_no_equal_active_birth};
ghost use Rattle.clv_base.specs.LogRules.{disorder};
ghost use Rattle.clv_base.specs.Restarts.{log_left};
ghost use Rattle.machine_calls.specs.Events.{event_fits, is_stepped, sends_fit};
ghost use Rattle.interleaving_core.specs.Seated.{IsSeated};
ghost use Rattle.crash_laws.specs.Fronts.{FrontsFit, LandsBy};
ghost use Rattle.crash_laws.specs.Moves.{Moves};
ghost use Rattle.interleaving_core.specs.Making.{MakesEntry};

use crate::{ListGate, Seat, flush_in, flush_out, restart, step};
use clv_base::events::{CoreStep, Entry, Event, Outcome};
use clv_base::kept::KeptOp;
use machine_calls::{Flier, Machine, Restarter};
use std::alloc::{AllocError, Global};

fn copy_event(event: &Event) -> Result<Event, AllocError>
    ensures { IfOk result (λ copy. copy ≡ event.now) }
{
    Ok(match event {
        Event::Op {
            tx,
            birth,
            nth,
            seen,
            op,
        } => Event::Op {
            tx: *tx,
            birth: *birth,
            nth: *nth,
            seen: *seen,
            op: KeptOp::new(op.op()),
        },
        Event::RollTo {
            tx,
            nth,
            seen,
            upto,
        } => Event::RollTo {
            tx: *tx,
            nth: *nth,
            seen: *seen,
            upto: *upto,
        },
        Event::Request { tx, parts } => Event::Request {
            tx: *tx,
            parts: parts.clone()?,
        },
        Event::Look { tx } => Event::Look { tx: *tx },
        Event::Drop { tx } => Event::Drop { tx: *tx },
        Event::Send => Event::Send,
        Event::Deliver { message, stamp } => Event::Deliver {
            message: *message,
            stamp: *stamp,
        },
        Event::Remind => Event::Remind,
        Event::FlushOut => Event::FlushOut,
        Event::FlushIn => Event::FlushIn,
        Event::Stop => Event::Stop,
        Event::Restart => Event::Restart,
    })
}

/// Whether the event is an operation with the birth of another transaction whose part here is active.
pub(crate) fn has_rival<M: Machine>(machine: &M, event: &Event) -> bool
    ensures { result ≡ not (has_no_equal_active_birth (M.shard machine.now) event.now) }
{
    match event {
        Event::Op { tx, birth, .. } => machine.has_equal_active_birth(*tx, *birth),
        _ => false,
    }
}

// A step that is one call of the machine.
fn take_step<M: Flier + Restarter + Machine<Gate = ListGate>>(
    seat: &mut Seat<M>,
    alloc: Global,
    clock: u64,
    made: &CoreStep,
) -> Result<Option<Outcome>, AllocError>
    requires stepped { is_stepped made.now.event ≡ true }
    requires seated { IsSeated (M.shard seat.old.machine) (M.gate seat.old.machine) seat.old.air }
    requires shard { (M.shard seat.old.machine).shard ≡ made.now.shard }
    requires fronts { FrontsFit (M.shard seat.old.machine) }
    requires fits { event_fits made.now.shard made.now.event ≡ true }
    requires birth { has_no_equal_active_birth (M.shard seat.old.machine) made.now.event ≡ true }
    ensures moves { IfOk result (λ o. Moves (answer_by clock made.now (M.shard seat.old.machine) made.now.event) (M.shard seat.old.machine) o (M.shard seat.new.machine)) }
    ensures sends { IfOk result (λ o. IfSome o (λ outcome. sends_fit outcome ≡ true)) }
    ensures seated { IfOk result (λ o. IsSeated (M.shard seat.new.machine) (M.gate seat.new.machine) seat.new.air) }
{
    let event = copy_event(&made.event)?;
    step(seat, alloc, clock, made.walker, event)
}

// The step on its shard: the outcome of its entry, or none where none is made.
fn move_seat<M: Flier + Restarter + Machine<Gate = ListGate>>(
    seat: &mut Seat<M>,
    alloc: Global,
    clock: u64,
    made: &CoreStep,
) -> Result<Option<Outcome>, AllocError>
    requires seated { IsSeated (M.shard seat.old.machine) (M.gate seat.old.machine) seat.old.air }
    requires shard { ((M.shard seat.old.machine).shard ≡ made.now.shard) × ((M.shard seat.old.machine).run ≡ 1) }
    requires fronts { FrontsFit (M.shard seat.old.machine) }
    requires lands { LandsBy clock (M.shard seat.old.machine) }
    requires fits { event_fits made.now.shard made.now.event ≡ true }
    requires birth { has_no_equal_active_birth (M.shard seat.old.machine) made.now.event ≡ true }
    requires in_order { disorder made.now.shard (log_left (M.shard seat.old.machine) made.now.kept) ≡ None }
    ensures moves { IfOk result (λ o. Moves (answer_by clock made.now (M.shard seat.old.machine) made.now.event) (M.shard seat.old.machine) o (M.shard seat.new.machine)) }
    ensures sends { IfOk result (λ o. IfSome o (λ outcome. sends_fit outcome ≡ true)) }
    ensures seated { IfOk result (λ o. IsSeated (M.shard seat.new.machine) (M.gate seat.new.machine) seat.new.air) }
{
    match &made.event {
        Event::FlushOut => flush_out(seat, alloc, clock, made.walker),
        Event::FlushIn => flush_in(seat, alloc, clock, made.walker, made.kept),
        Event::Restart => restart(seat, alloc, clock, made.walker, made.kept, made.shard),
        _ => take_step(seat, alloc, clock, made),
    }
}

/// The step on its shard, by a walker with this clock: its entry, or none where none is made. An `Err` is want of memory.
pub(crate) fn make_entry<M: Flier + Restarter + Machine<Gate = ListGate>>(
    seat: &mut Seat<M>,
    alloc: Global,
    clock: u64,
    made: &CoreStep,
) -> Result<Option<Entry>, AllocError>
    requires seated { IsSeated (M.shard seat.old.machine) (M.gate seat.old.machine) seat.old.air }
    requires shard { ((M.shard seat.old.machine).shard ≡ made.now.shard) × ((M.shard seat.old.machine).run ≡ 1) }
    requires fronts { FrontsFit (M.shard seat.old.machine) }
    requires lands { LandsBy clock (M.shard seat.old.machine) }
    requires fits { event_fits made.now.shard made.now.event ≡ true }
    requires birth { has_no_equal_active_birth (M.shard seat.old.machine) made.now.event ≡ true }
    requires in_order { disorder made.now.shard (log_left (M.shard seat.old.machine) made.now.kept) ≡ None }
    ensures makes { IfOk result (λ entry. MakesEntry (answer_by clock made.now (M.shard seat.old.machine) made.now.event) made.now (M.shard seat.old.machine) entry (M.shard seat.new.machine)) }
    ensures seated { IfOk result (λ entry. IsSeated (M.shard seat.new.machine) (M.gate seat.new.machine) seat.new.air) }
{
    let event = copy_event(&made.event)?;
    match move_seat(seat, alloc, clock, made)? {
        Some(outcome) => Ok(Some(Entry {
            stamp: seat.machine.last(),
            walker: made.walker,
            event,
            outcome,
        })),
        None => Ok(None),
    }
}
