// The two turns of a flush, on one lock.
ghost use Rattle.std.specs.Prelude.{◌≡◌, ◌<◌, ◌≤◌, ◌+◌, ◌^◌, true};
ghost use Rattle.clv_base.specs.declared.events.Event.TheVariants.{FlushOut};
ghost use Rattle.turn_lock.specs.Journals.{durable_of};
ghost use Rattle.turn_lock.specs.Passes.{number, seen, known, IsPassOf, IsSamePass};
ghost use Rattle.machine_laws.specs.Notes.{noted_durable};
ghost use Rattle.machine_calls.specs.Steps.{clock_by};
ghost use Rattle.machine_calls.specs.Flights.{outcome_in};
ghost use Rattle.machine_laws.specs.Gates.{Landable};
ghost use Rattle.cluster_turns.specs.Turns.{Turned, EventTold};
ghost use Rattle.cluster_turns.specs.Flights.{FlightTold, LandTold, Away};

use crate::Home;
use clv_base::events::Outcome;
use machine_calls::{Flier, Flight, Machine, StepError};
use machine_laws::{Note, Origin};
use std::alloc::Global;
use std::sync::Wait;
use turn_lock::{Pass, TurnLock};

// The clock of a walker for whom no event has a stamp any more.
const WORN: u64 = (1 << 48) - 1;

fn clock_for<G>(
    clock: u64,
    answer: &Result<(Outcome, Option<Flight<G>>), StepError>,
    before: u64,
    after: u64,
) -> u64
    ensures { result ≡ clock_by clock (outcome_in answer.now) before after }
{
    if after != before {
        return after;
    }
    match answer {
        Err(StepError::Worn { .. }) => clock.max(WORN),
        _ => clock,
    }
}

/// What a turn that begins a flush gives.
pub(crate) type Departure<M> = Result<(Outcome, Option<Flight<<M as Machine>::Gate>>), StepError>;

// Takes the gate, where there is something to flush.
pub(crate) fn take_off<M: Flier, R: Wait>(
    rt: &R,
    alloc: Global,
    lock: &TurnLock<Home<M>>,
    pass: Pass<Home<M>, Note, Origin>,
    clock: u64,
    walker: u32,
) -> (Pass<Home<M>, Note, Origin>, u64, Departure<M>)
    requires { IsPassOf lock.now pass × (number pass ≡ walker) }
    ensures pass { IsPassOf lock.now result.0 }
    ensures turned { Turned (EventTold clock walker FlushOut (outcome_in result.2) result.1) walker pass result.0 }
    ensures flight { FlightTold M.Gate.is_shut M.Gate.faults M.Gate.shard M.Gate.logs walker result.1 result.0 result.2 }
{
    let (turn, mut home) = lock.enter(rt, pass);
    let before = home.machine.last();
    let answer = home.machine.take_flight(alloc, clock, walker);
    let clock = clock_for(clock, &answer, before, home.machine.last());
    (lock.leave(turn, home), clock, answer)
}

// Publishes what a turn of the pass found durable.
fn tell<M: Machine>(
    lock: &TurnLock<Home<M>>,
    mut pass: Pass<Home<M>, Note, Origin>,
    pushed: bool,
    upto: u64,
) -> Pass<Home<M>, Note, Origin>
    requires pass { IsPassOf lock.now pass }
    requires found { pushed ≡ true → upto ≤ durable_of noted_durable (seen pass) }
    ensures pass { IsPassOf lock.now result × IsSamePass pass result }
    ensures known { known pass ≤ known result }
    ensures told { pushed ≡ true → upto ≤ known result }
{
    if pushed {
        lock.publish(&mut pass, upto);
        return pass;
    }
    pass
}

// Brings it back, and publishes what is durable.
pub(crate) fn touch_down<M: Flier, R: Wait>(
    rt: &R,
    lock: &TurnLock<Home<M>>,
    pass: Pass<Home<M>, Note, Origin>,
    clock: u64,
    walker: u32,
    flight: Flight<M::Gate>,
    pushed: bool,
) -> (Pass<Home<M>, Note, Origin>, u64)
    requires pass { IsPassOf lock.now pass × (number pass ≡ walker) }
    requires away { Away walker (λ layout s. Landable pushed s flight.upto (M.Gate.faults flight.as_taken.value) (M.Gate.is_shut flight.gate) (M.Gate.faults flight.gate) (M.Gate.shard flight.gate) (M.Gate.logs flight.gate layout)) pass }
    requires clock { clock < 2 ^ 48 + 15 }
    ensures pass { IsPassOf lock.now result.0 }
    ensures turned { Turned (LandTold clock walker pushed flight.upto result.1) walker pass result.0 }
    ensures published { pushed ≡ true → flight.upto ≤ known result.0 }
{
    let upto = flight.upto;
    let (turn, mut home) = lock.enter(rt, pass);
    home.machine.land(flight, pushed, clock, walker);
    let clock = home.machine.last();
    let pass = lock.leave(turn, home);
    (tell(lock, pass, pushed, upto), clock)
}
