// Restarts.
ghost use Rattle.std.specs.Prelude.{◌≡◌, ◌<◌, ◌^◌, suc, max, true, false, List, ◌∷◌, None, Some, IfOk, IfSome, IsSome};
ghost use Rattle.std.specs.List.{list_all};
ghost use Rattle.clv_base.specs.declared.logs.LogRecord.{LogRecord as RecordIs};
ghost use Rattle.clv_base.specs.declared.events.Outcome.TheVariants.{Up};
ghost use Rattle.clv_base.specs.declared.events.Event.TheVariants.{Restart};
ghost use Rattle.clv_base.specs.Events.{next_stamp};
ghost use Rattle.clv_base.specs.FileRules.{has_spelling};
ghost use Rattle.clv_base.specs.LogRules.{disorder};
ghost use Rattle.clv_base.specs.Restarts.{greatest_epoch, log_left, next_epoch, revive};
ghost use Rattle.machine_calls.specs.Events.{sends_fit};
ghost use Rattle.crash_laws.specs.Moves.{Moves};
ghost use Rattle.interleaving_core.specs.Seated.{IsSeated, HasLog};
ghost use Rattle.interleaving_core.specs.declared.seat.Air.TheVariants.{Home};

use crate::ListGate;
use crate::seat::{Air, Seat};
use clv_base::events::Outcome;
use clv_base::logs::LogRecord;
use log_analysis::LogFacts;
use machine_calls::{Flight, Machine, Restarter};
use ordered_store::Store;
use shard_recovery::{copy_log, recover};
use std::alloc::{AllocError, Global};
use std::mem::replace;

// Stamps end below it.
const STAMPS: u64 = 1 << 48;

// The greater of an epoch and that of a RESTART of run 1, which a checkpoint counts as.
fn later(so_far: u64, found: &LogRecord) -> u64
    ensures { (rest : List RecordIs) → greatest_epoch 1 so_far (found.now ∷ rest) ≡ greatest_epoch 1 result rest }
{
    match found {
        LogRecord::Restart { run: 1, epoch } | LogRecord::Check { run: 1, epoch, .. } => {
            so_far.max(*epoch)
        }
        _ => so_far,
    }
}

// The greatest epoch of run 1 in a log, and the shard's own.
fn greatest(own: u64, log: &[LogRecord]) -> u64
    ensures { result ≡ greatest_epoch 1 own log.now }
{
    let mut so_far = own;
    for found in log {
        so_far = later(so_far, found);
    }
    so_far
}

// The gate of a machine that is down and has it.
fn gate_of<M: Restarter + Machine<Gate = ListGate>>(machine: &mut M) -> ListGate
    requires down { (M.shard machine.old).is_up ≡ false }
    requires home { IsSome (M.gate machine.old) }
    ensures gate { M.gate machine.old ≡ Some result }
    ensures away { M.gate machine.new ≡ None }
    ensures shard { M.shard machine.new ≡ M.shard machine.old }
{
    match machine.down_gate() {
        Some(gate) => gate,
        None => unreachable!(),
    }
}

// The gate, with the batch in flight where that is kept: its log is what a crash leaves then. An `Err` is want of memory.
fn found_log<M: Restarter + Machine<Gate = ListGate>>(
    machine: &mut M,
    air: Air,
    kept: bool,
) -> Result<ListGate, AllocError>
    requires down { (M.shard machine.old).is_up ≡ false }
    requires seated { IsSeated (M.shard machine.old) (M.gate machine.old) air }
    ensures log { IfOk result (λ gate. HasLog gate (log_left (M.shard machine.old) kept)) }
    ensures away { IfOk result (λ gate. M.gate machine.new ≡ None) }
    ensures shard { M.shard machine.new ≡ M.shard machine.old }
{
    let (mut gate, batch) = match air {
        Air::Home => return Ok(gate_of(machine)),
        Air::Away(flight) => {
            let Flight {
                gate,
                as_taken: _,
                payload,
                upto: _,
            } = flight;
            (gate, payload)
        }
        Air::Lost(payload) => (gate_of(machine), payload),
    };
    gate.open_again();
    if kept && gate.push(batch.as_slice()).is_err() {
        return Err(AllocError);
    }
    Ok(gate)
}

// The epoch of the next restart, where there is one.
fn next(own: u64, log: &[LogRecord]) -> Option<u64>
    ensures { IfSome result (λ epoch. epoch ≡ suc (greatest_epoch 1 own log.now)) }
{
    greatest(own, log).checked_add(1)
}

// The shard, whose gate was taken, goes on from the log found, which is the gate's.
fn revive_from<M: Restarter + Machine<Gate = ListGate>>(
    machine: &mut M,
    alloc: Global,
    clock: u64,
    walker: u32,
    shard: u32,
    mut gate: ListGate,
    found: Vec<LogRecord>,
    epoch: u64,
) -> Result<Outcome, AllocError>
    requires shard { ((M.shard machine.old).shard ≡ shard) × ((M.shard machine.old).run ≡ 1) }
    requires down { (M.shard machine.old).is_up ≡ false }
    requires away { M.gate machine.old ≡ None }
    requires log { (kept : _) × (found.items ≡ log_left (M.shard machine.old) kept) }
    requires gate { HasLog gate found.items }
    requires in_order { disorder shard found.items ≡ None }
    requires epoch { epoch ≡ suc (greatest_epoch 1 (M.shard machine.old).local.epoch found.items) }
    requires room { next_stamp (M.shard machine.old) clock Restart < 2 ^ 48 }
    ensures sends { IfOk result (λ outcome. sends_fit outcome ≡ true) }
    ensures moves { IfOk result (λ outcome. (kept : _) → found.items ≡ log_left (M.shard machine.old) kept → Moves (revive (M.shard machine.old) clock walker kept) (M.shard machine.old) (Some outcome) (M.shard machine.new)) }
    ensures seated { IfOk result (λ outcome. IsSeated (M.shard machine.new) (M.gate machine.new) Home) }
{
    let Ok(mut store) = M::Store::empty(alloc) else {
        return Err(AllocError);
    };
    let facts = LogFacts::of_log(alloc, &found)?;
    let Ok(recovered) = recover(alloc, &mut store, &mut gate, found, facts, shard, 1, epoch) else {
        return Err(AllocError);
    };
    match machine.revive(alloc, gate, store, recovered, epoch, clock, walker) {
        Ok(outcome) => Ok(outcome),
        Err(_) => Err(AllocError),
    }
}

/// The restart of a shard that is down, by a walker with this clock, which finds the records in flight where they are `kept`: the outcome of its entry, or none
/// where the shard is up or the clock is worn. An `Err` is want of memory, or of a greater epoch.
pub fn restart<M: Restarter + Machine<Gate = ListGate>>(
    seat: &mut Seat<M>,
    alloc: Global,
    clock: u64,
    walker: u32,
    kept: bool,
    shard: u32,
) -> Result<Option<Outcome>, AllocError>
    requires seated { IsSeated (M.shard seat.old.machine) (M.gate seat.old.machine) seat.old.air }
    requires shard { ((M.shard seat.old.machine).shard ≡ shard) × ((M.shard seat.old.machine).run ≡ 1) }
    requires in_order { disorder shard (log_left (M.shard seat.old.machine) kept) ≡ None }
    ensures sends { IfOk result (λ made. IfSome made (λ outcome. sends_fit outcome ≡ true)) }
    ensures moves { IfOk result (λ made. Moves (revive (M.shard seat.old.machine) clock walker kept) (M.shard seat.old.machine) made (M.shard seat.new.machine)) }
    ensures seated { IfOk result (λ made. IsSeated (M.shard seat.new.machine) (M.gate seat.new.machine) seat.new.air) }
{
    if !seat.machine.is_down() {
        return Ok(None);
    }
    if seat.machine.last().max(clock) >= STAMPS - 1 {
        return Ok(None);
    }
    let air = replace(&mut seat.air, Air::Home);
    let gate = found_log(&mut seat.machine, air, kept)?;
    let found = copy_log(alloc, gate.records())?;
    let Some(epoch) = next(seat.machine.epoch(), &found) else {
        return Err(AllocError);
    };
    let outcome = revive_from(
        &mut seat.machine,
        alloc,
        clock,
        walker,
        shard,
        gate,
        found,
        epoch,
    )?;
    Ok(Some(outcome))
}
