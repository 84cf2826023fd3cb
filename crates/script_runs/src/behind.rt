// Sessions on threads, behind one transaction that runs alone.
ghost use Rattle.std.specs.Prelude.{◌≡◌, ◌<◌, ℕ, true, length, slice_index_or, IfErr};
ghost use Rattle.std.specs.List.{list_all};
ghost use Rattle.script_lang.specs.Laws.{is_narrow_body};
ghost use Rattle.script_runs.specs.Ran.{stop_in, IsIdle, IdleAfter};
ghost use Rattle.script_runs.specs.Begun.{HasBegun};
ghost use Rattle.script_runs.specs.Books.{IsKept};
ghost use Rattle.script_runs.specs.Seen.{Keeps};
ghost use Rattle.script_runs.specs.Alone.{AllFollow, BeganAlone};

use crate::seats::{Seat, run_together};
use crate::statements::{sessions_go_on, sessions_stop};
use crate::{SessionCalls, run_session};
use std::alloc::Global;
use std::sync::Wait;
use std::thread::Threads;

// Runs the first transaction of a seat. The others are left to it.
fn run_first<R: Wait, C: SessionCalls>(
    rt: &R,
    alloc: Global,
    seat: &mut Seat<'_, C>,
    most: Option<u32>,
)
    requires session { C.holds seat.old.session }
    requires idle { IsIdle (C.seen seat.old.session) }
    requires narrow { list_all is_narrow_body seat.old.transactions.now ≡ true }
    requires kept { IsKept (C.seen seat.old.session) seat.old.book }
    ensures session { C.holds seat.new.session }
    ensures base { C.base seat.new.session ≡ C.base seat.old.session }
    ensures misses { Keeps (C.missed seat.old.session) (C.missed seat.new.session) }
    ensures begun { HasBegun (C.missed seat.new.session) seat.old.transactions.now seat.new.transactions.now most (stop_in seat.new.ended) (C.seen seat.old.session) (C.seen seat.new.session) }
    ensures idle { IdleAfter seat.new.ended (C.seen seat.new.session) }
    ensures grounds { IfErr seat.new.ended (C.grounds seat.new.session) }
    ensures kept { IsKept (C.seen seat.new.session) seat.new.book }
    ensures keeps { seat.new.book.keeps ≡ seat.old.book.keeps }
{
    let first = seat.transactions.len().min(1);
    let (front, behind) = seat.transactions.split_at(first);
    seat.ended = run_session(rt, alloc, &mut seat.session, front, most, &mut seat.book);
    seat.transactions = behind;
}

// Runs the first transaction of the first seat, and then the sessions of all seats beside each other, with clocks that are up to the first one's. Where that
// transaction is stopped, the first seat's session has ended, and the others run.
pub(crate) fn run_behind_first<R: Threads + Wait + Sync, C: SessionCalls + Send>(
    rt: &R,
    alloc: Global,
    seats: &mut [Seat<'_, C>],
    most: Option<u32>,
)
    requires session { (k : ℕ) (d : _) → k < length seats.old → C.holds (slice_index_or seats.old k d).session }
    requires idle { (k : ℕ) (d : _) → k < length seats.old → IsIdle (C.seen (slice_index_or seats.old k d).session) }
    requires narrow { (k : ℕ) (d : _) → k < length seats.old → list_all is_narrow_body (slice_index_or seats.old k d).transactions.now ≡ true }
    requires kept { (k : ℕ) (d : _) → k < length seats.old → IsKept (C.seen (slice_index_or seats.old k d).session) (slice_index_or seats.old k d).book }
    ensures session { (k : ℕ) (d : _) → k < length seats.old → C.holds (slice_index_or seats.new k d).session }
    ensures base { (k : ℕ) (d : _) → k < length seats.old → C.base (slice_index_or seats.new k d).session ≡ C.base (slice_index_or seats.old k d).session }
    ensures misses { (k : ℕ) (d : _) → k < length seats.old → Keeps (C.missed (slice_index_or seats.old k d).session) (C.missed (slice_index_or seats.new k d).session) }
    ensures transactions { (k : ℕ) (d : _) → k < length seats.old → (slice_index_or seats.new k d).transactions.now ≡ (slice_index_or seats.old k d).transactions.now }
    ensures follows { AllFollow C.seen C.missed most seats.old seats.new }
    ensures grounds { (k : ℕ) (d : _) → k < length seats.old → IfErr (slice_index_or seats.new k d).ended (C.grounds (slice_index_or seats.new k d).session) }
    ensures alone { BeganAlone C.seen most seats.old seats.new }
    ensures kept { (k : ℕ) (d : _) → k < length seats.old → IsKept (C.seen (slice_index_or seats.new k d).session) (slice_index_or seats.new k d).book }
    ensures keeps { (k : ℕ) (d : _) → k < length seats.old → (slice_index_or seats.new k d).book.keeps ≡ (slice_index_or seats.old k d).book.keeps }
{
    sessions_go_on::<C>();
    sessions_stop::<C>();
    if seats.is_empty() {
        return;
    }
    let whole = seats[0].transactions;
    run_first(rt, alloc, &mut seats[0], most);
    let clock = seats[0].session.clock();
    if seats[0].ended.is_ok() {
        run_together(rt, alloc, seats, most, clock);
    } else {
        run_together(rt, alloc, &mut seats[1..], most, clock);
    }
    seats[0].transactions = whole;
}
