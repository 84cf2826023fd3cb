// One turn of one lock.
ghost use Rattle.std.specs.Prelude.{◌≡◌, ◌≤◌, true, Some, IfOk};
ghost use Rattle.clv_base.specs.Events.{message_stamp};
ghost use Rattle.turn_lock.specs.Passes.{number, seen, pass_origin, IsPassOf};
ghost use Rattle.machine_calls.specs.Events.{event_fits, sends_fit};
ghost use Rattle.machine_laws.specs.declared.notes.Origin.{Origin as OriginIs};
ghost use Rattle.machine_laws.specs.Homes.{is_single, is_named, IsFree, state_of};
ghost use Rattle.cluster_turns.specs.Turns.{Turned, EventTold, SettledTold};

use crate::home::Home;
use clv_base::events::{Event, Outcome};
use machine_calls::{Machine, StepError};
use machine_laws::{Note, Origin};
use std::alloc::Global;
use std::sync::Wait;
use turn_lock::{Pass, TurnLock};

// One event in a turn, with the walker's clock after it. A walker that stays goes out of the door behind it only where it doesn't go on at once.
pub(crate) fn turn<M: Machine, R: Wait>(
    rt: &R,
    alloc: Global,
    lock: &TurnLock<Home<M>>,
    pass: Pass<Home<M>, Note, Origin>,
    clock: u64,
    walker: u32,
    event: Event,
    stays: bool,
) -> (Pass<Home<M>, Note, Origin>, u64, Result<Outcome, StepError>)
    requires pass { IsPassOf lock.now pass × (number pass ≡ walker) }
    requires single { is_single event ≡ true }
    requires fits { (o : OriginIs) → pass_origin pass ≡ Some o → event_fits o.shard event ≡ true }
    requires named { is_named walker event ≡ true }
    requires in_time { message_stamp event ≤ clock }
    requires free { (o : OriginIs) → pass_origin pass ≡ Some o → IsFree (state_of o (seen pass)) event }
    ensures pass { IsPassOf lock.now result.0 }
    ensures turned { Turned (EventTold clock walker event result.2 result.1) walker pass result.0 }
    ensures sends { IfOk result.2 (λ o. sends_fit o ≡ true) }
{
    lock.come_in(rt, walker);
    let (turn, mut home) = lock.enter_in(rt, pass);
    let (clock, answer) = home.event(alloc, clock, walker, event);
    let pass = lock.leave_in(turn, home);
    lock.go_out_unless(walker, goes_on(stays, &answer));
    (pass, clock, answer)
}

// Whether the next turn of who may stay follows at once: behind an operation that was answered, and before the first look at a request.
fn goes_on(stays: bool, answer: &Result<Outcome, StepError>) -> bool {
    match answer {
        Ok(Outcome::Answered { .. }) => stays,
        Ok(Outcome::Asked) => stays,
        _ => false,
    }
}

// Whether the shard is settled, by a turn that makes no entry.
pub(crate) fn survey<M: Machine, R: Wait>(
    rt: &R,
    lock: &TurnLock<Home<M>>,
    pass: Pass<Home<M>, Note, Origin>,
    walker: u32,
) -> (Pass<Home<M>, Note, Origin>, bool)
    requires pass { IsPassOf lock.now pass × (number pass ≡ walker) }
    ensures pass { IsPassOf lock.now result.0 }
    ensures turned { Turned (SettledTold result.1) walker pass result.0 }
{
    let (turn, home) = lock.enter(rt, pass);
    let settled = home.machine.is_settled();
    (lock.leave(turn, home), settled)
}
