// Sessions with their boxes, on threads.
ghost use Rattle.std.specs.Prelude.{◌≡◌, ◌<◌, ℕ, length, slice_index_or, IfErr};
ghost use Rattle.rtrb.specs.Ring.{sent, received, SameProducer, SameConsumer};
ghost use Rattle.script_runs.specs.Ran.{IsIdle};
ghost use Rattle.script_runs.specs.Seen.{Keeps};
ghost use Rattle.live_sessions.specs.Served.{HasServed};
ghost use Rattle.live_threads.specs.Seated.{IsReady, HasSat};

use live_sessions::{Ending, serve_session};
use live_streams::{RingInbox, RingOutbox, Signals};
use script_runs::{SessionCalls, StopCause};
use std::alloc::Global;
use std::sync::Wait;
use std::thread;
use std::thread::Threads;

/// A session, and how it ended.
#[derive(Drop)]
pub struct Place<C> {
    pub session: C,
    pub ended: Result<(), StopCause>,
}

/// A place with its boxes, and whether all its replies were told.
#[derive(Drop)]
pub struct Seat<'a, C, R: Wait> {
    pub place: Place<C>,
    pub inbox: RingInbox<'a, R>,
    pub outbox: RingOutbox<'a, R>,
    pub all_told: bool,
}

// The session of a seat, from its first line to its end.
fn serve_seat<R: Wait, W: Wait, C: SessionCalls>(
    rt: &R,
    alloc: Global,
    signals: &Signals,
    seat: &mut Seat<'_, C, W>,
)
    requires session { C.holds seat.old.place.session }
    requires idle { IsIdle (C.seen seat.old.place.session) }
    ensures session { C.holds seat.new.place.session }
    ensures base { C.base seat.new.place.session ≡ C.base seat.old.place.session }
    ensures misses { Keeps (C.missed seat.old.place.session) (C.missed seat.new.place.session) }
    ensures served { HasServed seat.new.all_told (received seat.old.inbox.lines) (received seat.new.inbox.lines) (sent seat.old.outbox.answers) (sent seat.new.outbox.answers) (C.seen seat.old.place.session) (C.seen seat.new.place.session) }
    ensures grounds { IfErr seat.new.place.ended (C.grounds seat.new.place.session) }
    ensures inbox { SameConsumer seat.old.inbox.lines seat.new.inbox.lines }
    ensures outbox { SameProducer seat.old.outbox.answers seat.new.outbox.answers }
{
    signals.begin();
    let Ending { stopped, all_told } = serve_session(
        rt,
        alloc,
        &mut seat.place.session,
        &mut seat.inbox,
        &mut seat.outbox,
    );
    seat.place.ended = stopped;
    seat.all_told = all_told;
    signals.end();
}

/// Who does work of its own on a thread.
pub trait Sits {
    /// It may begin.
    ghost ready: { Self → Type 0 };

    /// It did all of it, from the one to the other.
    ghost sat: { Self → Self → Type 0 };

    fn sit_through<Q: Wait>(&mut self, rt: &Q, alloc: Global, signals: &Signals)
        requires { ready self.old }
        ensures { sat self.old self.new };
}

impl<'a, C: SessionCalls, R: Wait> Sits for Seat<'a, C, R> {
    ghost ready = { λ s. IsReady C.seen C.holds s };

    ghost sat = { λ s t. HasSat C.seen C.holds C.base C.missed C.grounds s t };

    fn sit_through<Q: Wait>(&mut self, rt: &Q, alloc: Global, signals: &Signals) {
        serve_seat(rt, alloc, signals, self);
    }
}

/// Each of them, on a thread of its own.
pub fn serve_seats<R: Threads + Wait + Sync, X: Sits + Send>(
    rt: &R,
    alloc: Global,
    signals: &Signals,
    seats: &mut [X],
)
    requires { (k : ℕ) (d : _) → k < length seats.old → X.ready (slice_index_or seats.old k d) }
    ensures { (k : ℕ) (d : _) → k < length seats.old → X.sat (slice_index_or seats.old k d) (slice_index_or seats.new k d) }
{
    if seats.is_empty() {
        return;
    }
    let count = seats.len();
    let body = |_: usize, seat: &mut X|
        requires { X.ready seat.now }
        ensures { X.sat seat.entry.now seat.exit.now }
    { seat.sit_through(rt, alloc, signals) };
    thread::for_each_mut(rt, seats, count, &body);
}
