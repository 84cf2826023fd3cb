// Whether a step may be made.
ghost use Rattle.std.specs.Prelude.{◌≡◌, ◌<◌, true, IfOk};
ghost use Rattle.std.specs.List.{AllByRecursion};
ghost use Rattle.clv_base.specs.Journals.{own};
ghost use Rattle.clv_base.specs.Runs.{was_sent as was_sent_in};
ghost use Rattle.clv_base.specs.Sessions.{is_session, is_of_session as of_session, is_session_number as number_of};
ghost use Rattle.machine_calls.specs.Events.{event_fits};
ghost use Rattle.interleaving_core.specs.Naming.{names_fit};
ghost use Rattle.crash_laws.specs.Running.{session_may as session_may_in, is_offered as offered};
ghost use Rattle.interleaving_core.specs.Sound.{AllFit};

use crate::{session_of, was_sent};
use clv_base::events::{Entry, Event};
use clv_base::splits::Splits;
use std::alloc::{AllocError, Global};

fn comes_after_sending(history: &[(u32, Entry)], event: &Event) -> bool
    ensures { result ≡ was_sent_in history.now event.now }
{
    match event {
        Event::Deliver { message, stamp } => was_sent(*message, *stamp, history),
        _ => true,
    }
}

fn is_of_session(event: &Event) -> bool
    ensures { result ≡ of_session event.now }
{
    match event {
        Event::Op { .. }
        | Event::RollTo { .. }
        | Event::Request { .. }
        | Event::Look { .. }
        | Event::Drop { .. } => true,
        _ => false,
    }
}

fn is_session_number(walker: u32) -> bool
    ensures { result ≡ number_of walker }
{
    0 < walker && walker <= 64
}

// Whether the walker's session may make the event, or it is none of a session.
fn session_may(
    alloc: Global,
    splits: &Splits,
    history: &[(u32, Entry)],
    walker: u32,
    shard: u32,
    event: &Event,
) -> Result<bool, AllocError>
    requires shards { AllByRecursion (λ e. e.0 < 16) history.now }
    requires session { is_session splits.now 1 walker (own walker history.now) ≡ true }
    ensures may { IfOk result (λ may. may ≡ session_may_in splits.now history.now walker shard event.now) }
    ensures fits { IfOk result (λ may. may ≡ true → names_fit shard event.now ≡ true) }
{
    if !is_of_session(event) {
        return Ok(true);
    }
    if !is_session_number(walker) {
        return Ok(false);
    }
    let session = session_of(alloc, walker, history)?;
    session.may_make(alloc, splits, shard, event)
}

/// Whether the step may be made, by its walker's session and the messages that were sent. An `Err` is want of memory.
pub(crate) fn is_offered(
    alloc: Global,
    splits: &Splits,
    history: &[(u32, Entry)],
    walker: u32,
    shard: u32,
    event: &Event,
) -> Result<bool, AllocError>
    requires shards { AllByRecursion (λ e. e.0 < 16) history.now }
    requires session { is_session splits.now 1 walker (own walker history.now) ≡ true }
    requires sent { AllFit history.now }
    ensures offered { IfOk result (λ may. may ≡ offered splits.now history.now walker shard event.now) }
    ensures fits { IfOk result (λ may. may ≡ true → event_fits shard event.now ≡ true) }
{
    if !comes_after_sending(history, event) {
        return Ok(false);
    }
    session_may(alloc, splits, history, walker, shard, event)
}
