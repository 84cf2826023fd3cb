// Sessions with their work, on threads.
ghost use Rattle.std.specs.Prelude.{◌≡◌, ◌<◌, ℕ, max, true, length, slice_index_or, IfErr};
ghost use Rattle.std.specs.List.{list_all};
ghost use Rattle.script_lang.specs.Laws.{is_narrow_body};
ghost use Rattle.script_runs.specs.Ran.{stop_in, IsIdle, FollowsFrom};
ghost use Rattle.script_runs.specs.Books.{IsKept};
ghost use Rattle.script_runs.specs.Seen.{Keeps};
ghost use Rattle.script_runs.specs.Alone.{BeginsPast};

use crate::{SessionCalls, StopCause, run_session};
use script_lang::Transaction;
use session_books::books::Book;
use std::alloc::Global;
use std::sync::Wait;
use std::thread;
use std::thread::Threads;

/// A session, the transactions that it is to run, how it ended, and its book.
#[derive(Drop)]
pub struct Seat<'a, C> {
    pub session: C,
    pub transactions: &'a [Transaction],
    pub ended: Result<(), StopCause>,
    pub book: Book,
}

// Runs the session of a seat, whose entries have stamps past the clock.
fn run_one<R: Wait, C: SessionCalls>(
    rt: &R,
    alloc: Global,
    seat: &mut Seat<'_, C>,
    most: Option<u32>,
    clock: u64,
)
    requires session { C.holds seat.old.session }
    requires idle { IsIdle (C.seen seat.old.session) }
    requires narrow { list_all is_narrow_body seat.old.transactions.now ≡ true }
    requires kept { IsKept (C.seen seat.old.session) seat.old.book }
    ensures session { C.holds seat.new.session }
    ensures base { C.base seat.new.session ≡ C.base seat.old.session }
    ensures misses { Keeps (C.missed seat.old.session) (C.missed seat.new.session) }
    ensures transactions { seat.new.transactions.now ≡ seat.old.transactions.now }
    ensures follows { FollowsFrom (max (C.seen seat.old.session).clock clock) (C.missed seat.new.session) seat.old.transactions.now most (stop_in seat.new.ended) (C.seen seat.old.session) (C.seen seat.new.session) }
    ensures grounds { IfErr seat.new.ended (C.grounds seat.new.session) }
    ensures past { BeginsPast clock (C.seen seat.old.session) (C.seen seat.new.session) }
    ensures kept { IsKept (C.seen seat.new.session) seat.new.book }
    ensures keeps { seat.new.book.keeps ≡ seat.old.book.keeps }
{
    seat.session.raise(clock);
    seat.ended = run_session(
        rt,
        alloc,
        &mut seat.session,
        seat.transactions,
        most,
        &mut seat.book,
    );
}

// Runs the session of each seat on a thread of its own. Their entries have stamps past the clock.
pub(crate) fn run_together<R: Threads + Wait + Sync, C: SessionCalls + Send>(
    rt: &R,
    alloc: Global,
    seats: &mut [Seat<'_, C>],
    most: Option<u32>,
    clock: u64,
)
    requires session { (k : ℕ) (d : _) → k < length seats.old → C.holds (slice_index_or seats.old k d).session }
    requires idle { (k : ℕ) (d : _) → k < length seats.old → IsIdle (C.seen (slice_index_or seats.old k d).session) }
    requires narrow { (k : ℕ) (d : _) → k < length seats.old → list_all is_narrow_body (slice_index_or seats.old k d).transactions.now ≡ true }
    requires kept { (k : ℕ) (d : _) → k < length seats.old → IsKept (C.seen (slice_index_or seats.old k d).session) (slice_index_or seats.old k d).book }
    ensures session { (k : ℕ) (d : _) → k < length seats.old → C.holds (slice_index_or seats.new k d).session }
    ensures base { (k : ℕ) (d : _) → k < length seats.old → C.base (slice_index_or seats.new k d).session ≡ C.base (slice_index_or seats.old k d).session }
    ensures misses { (k : ℕ) (d : _) → k < length seats.old → Keeps (C.missed (slice_index_or seats.old k d).session) (C.missed (slice_index_or seats.new k d).session) }
    ensures transactions { (k : ℕ) (d : _) → k < length seats.old → (slice_index_or seats.new k d).transactions.now ≡ (slice_index_or seats.old k d).transactions.now }
    ensures follows { (k : ℕ) (d : _) → k < length seats.old → FollowsFrom (max (C.seen (slice_index_or seats.old k d).session).clock clock) (C.missed (slice_index_or seats.new k d).session) (slice_index_or seats.old k d).transactions.now most (stop_in (slice_index_or seats.new k d).ended) (C.seen (slice_index_or seats.old k d).session) (C.seen (slice_index_or seats.new k d).session) }
    ensures grounds { (k : ℕ) (d : _) → k < length seats.old → IfErr (slice_index_or seats.new k d).ended (C.grounds (slice_index_or seats.new k d).session) }
    ensures past { (k : ℕ) (d : _) → k < length seats.old → BeginsPast clock (C.seen (slice_index_or seats.old k d).session) (C.seen (slice_index_or seats.new k d).session) }
    ensures kept { (k : ℕ) (d : _) → k < length seats.old → IsKept (C.seen (slice_index_or seats.new k d).session) (slice_index_or seats.new k d).book }
    ensures keeps { (k : ℕ) (d : _) → k < length seats.old → (slice_index_or seats.new k d).book.keeps ≡ (slice_index_or seats.old k d).book.keeps }
{
    if seats.is_empty() {
        return;
    }
    let count = seats.len();
    let body = |_: usize, seat: &mut Seat<'_, C>|
        requires session { C.holds seat.now.session }
        requires idle { IsIdle (C.seen seat.now.session) }
        requires narrow { list_all is_narrow_body seat.now.transactions.now ≡ true }
        requires kept { IsKept (C.seen seat.now.session) seat.now.book }
        ensures session { C.holds seat.exit.now.session }
        ensures base { C.base seat.exit.now.session ≡ C.base seat.entry.now.session }
        ensures misses { Keeps (C.missed seat.entry.now.session) (C.missed seat.exit.now.session) }
        ensures transactions { seat.exit.now.transactions.now ≡ seat.entry.now.transactions.now }
        ensures follows { FollowsFrom (max (C.seen seat.entry.now.session).clock clock) (C.missed seat.exit.now.session) seat.entry.now.transactions.now most (stop_in seat.exit.now.ended) (C.seen seat.entry.now.session) (C.seen seat.exit.now.session) }
        ensures grounds { IfErr seat.exit.now.ended (C.grounds seat.exit.now.session) }
        ensures past { BeginsPast clock (C.seen seat.entry.now.session) (C.seen seat.exit.now.session) }
        ensures kept { IsKept (C.seen seat.exit.now.session) seat.exit.now.book }
        ensures keeps { seat.exit.now.book.keeps ≡ seat.entry.now.book.keeps }
    { run_one(rt, alloc, seat, most, clock) };
    thread::for_each_mut(rt, seats, count, &body);
}
