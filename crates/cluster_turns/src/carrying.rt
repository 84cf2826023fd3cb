// One message.
ghost use Rattle.std.specs.Prelude.{◌≡◌, ◌<◌, true, length, Result, IfOk};
ghost use Rattle.clv_base.specs.declared.events.Event.TheVariants.{Send};
ghost use Rattle.clv_base.specs.declared.events.Outcome.{Outcome as OutcomeIs};
ghost use Rattle.clv_base.specs.Events.{to_of};
ghost use Rattle.machine_calls.specs.declared.machine.StepError.{StepError as StepErrorIs};
ghost use Rattle.machine_calls.specs.Events.{message_fits, sends_fit};
ghost use Rattle.cluster_turns.specs.Turns.{EventTold};
ghost use Rattle.cluster_turns.specs.Walkers.{IsWalker, IsSameWalker, Walked, kept};
ghost use Rattle.cluster_turns.specs.Carried.{message_of, refusal, brought_by, WasTaken, BringTold, CarryTold};

use crate::{Shards, Walker};
use clv_base::events::{Event, Outcome};
use clv_base::messages::Message;
use machine_calls::{Machine, StepError};
use std::alloc::Global;
use std::sync::Wait;

/// Whether there was a message.
#[derive(Clone, Copy, PartialEq, Eq)]
pub enum Carry {
    /// It was taken out, and its receiver had it, or it is for no shard.
    Carried,
    Nothing,
}

/// Why none came: a message whose delivery meets it is lost.
#[derive(Clone, Copy, PartialEq, Eq)]
pub enum CarryError {
    /// The sender, or the receiver.
    Down { shard: u32 },
    Worn { at: u64 },
    Memory,
}

fn receiver(message: &Message) -> u32
    ensures { result ≡ to_of message.now }
{
    match message {
        Message::Prepare { to, .. } => *to,
        Message::Vote { to, .. } => *to,
        Message::Decide { to, .. } => *to,
        Message::Done { to, .. } => *to,
        Message::Ask { to, .. } => *to,
    }
}

pub(crate) fn refused(error: StepError) -> CarryError
    ensures { result ≡ refusal error }
{
    match error {
        StepError::Memory => CarryError::Memory,
        StepError::Worn { at } => CarryError::Worn { at },
    }
}

fn brought(to: u32, answer: Result<Outcome, StepError>) -> Result<Carry, CarryError>
    ensures { result ≡ brought_by to answer }
{
    match answer {
        Ok(Outcome::Down) => Err(CarryError::Down { shard: to }),
        Ok(_) => Ok(Carry::Carried),
        Err(error) => Err(refused(error)),
    }
}

fn message_in(from: u32, answer: Result<Outcome, StepError>) -> Result<Option<Message>, CarryError>
    ensures { result ≡ message_of from answer }
{
    match answer {
        Ok(outcome) => match outcome {
            Outcome::Sent(message) => Ok(Some(message)),
            Outcome::Nothing => Ok(None),
            _ => Err(CarryError::Down { shard: from }),
        },
        Err(error) => Err(refused(error)),
    }
}

// Takes the oldest message out of a shard's outbox.
fn take_out<M: Machine, R: Wait>(
    rt: &R,
    alloc: Global,
    shards: &Shards<M>,
    walker: &mut Walker<M>,
    from: u32,
) -> Result<Option<Message>, CarryError>
    requires walker { IsWalker shards.now walker.old }
    requires shard { from < length shards.now.locks.items }
    ensures walker { IsWalker shards.now walker.new × IsSameWalker walker.old walker.new }
    ensures taken { (r : Result OutcomeIs StepErrorIs) × (result ≡ message_of from r) × Walked (EventTold walker.old.clock walker.old.number Send r walker.new.clock) from walker.old.number walker.old.passes.items walker.new.passes.items × IfOk r (λ o. sends_fit o ≡ true) }
{
    let answer = shards.event(rt, alloc, walker, from, Event::Send);
    message_in(from, answer)
}

// Brings a message that the walker has just taken out, at its clock.
fn bring<M: Machine, R: Wait>(
    rt: &R,
    alloc: Global,
    shards: &Shards<M>,
    walker: &mut Walker<M>,
    message: Message,
) -> Result<Carry, CarryError>
    requires walker { IsWalker shards.now walker.old }
    requires taken { WasTaken message walker.old.clock (kept walker.old.passes.items) }
    requires fits { message_fits message ≡ true }
    ensures walker { IsWalker shards.now walker.new × IsSameWalker walker.old walker.new }
    ensures brought { BringTold (length shards.now.locks.items) message walker.old.number walker.old.clock walker.old.passes.items result walker.new.clock walker.new.passes.items }
{
    let to = receiver(&message);
    if to as usize >= shards.locks.len() {
        return Ok(Carry::Carried);
    }
    let event = Event::Deliver {
        message,
        stamp: walker.clock,
    };
    let answer = shards.event(rt, alloc, walker, to, event);
    brought(to, answer)
}

/// Takes the oldest message out of a shard's outbox and delivers it, in two turns. What the walker delivers it took out itself.
pub fn carry_once<M: Machine, R: Wait>(
    rt: &R,
    alloc: Global,
    shards: &Shards<M>,
    walker: &mut Walker<M>,
    from: u32,
) -> Result<Carry, CarryError>
    requires walker { IsWalker shards.now walker.old }
    requires shard { from < length shards.now.locks.items }
    ensures walker { IsWalker shards.now walker.new × IsSameWalker walker.old walker.new }
    ensures carried { CarryTold (length shards.now.locks.items) from walker.old.number walker.old.clock walker.old.passes.items result walker.new.clock walker.new.passes.items }
{
    match take_out(rt, alloc, shards, walker, from) {
        Ok(taken) => match taken {
            Some(message) => bring(rt, alloc, shards, walker, message),
            None => Ok(Carry::Nothing),
        },
        Err(error) => Err(error),
    }
}
