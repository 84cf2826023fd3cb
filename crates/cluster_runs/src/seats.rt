// Seats for the sessions of a script.
ghost use Rattle.std.specs.Prelude.{◌≡◌, ◌<◌, ◌≤◌, ◌+◌, ℕ, suc, true, [], length, slice_index_or, vec_len, vec_capacity, Err, IfErr};
ghost use Rattle.clv_base.specs.Shards.{are_splits};
ghost use Rattle.cluster_opening.specs.Made.{IsNewWalker};
ghost use Rattle.command_line.specs.Running.{IsOk};
ghost use Rattle.cluster_runs.specs.Sessions.{IsSeated};
ghost use Rattle.cluster_runs.specs.Books.{IsBlank};

use crate::Plan;
use cluster_turns::{Shards, Walker};
use command_line::graver;
use io_model::Pace;
use machine_calls::Flier;
use script_runs::{Seat, StopCause};
use session_api::ScriptSession;
use session_books::books::Book;
use std::alloc::Global;
use std::sync::Wait;

// A book in which nothing was written.
fn blank_book(alloc: Global, keeps_rows: bool) -> Book
    ensures blank { IsBlank result }
    ensures keeps { result.keeps ≡ keeps_rows }
{
    if keeps_rows {
        Book::new(alloc)
    } else {
        Book::of_counts(alloc)
    }
}

// A seat for each session, with a blank book and its walker, which leaves the list of walkers, and has this clock from then on; walker 0 stays.
pub(crate) fn take_seats<'a, M: Flier, P: Pace, R: Wait>(
    rt: &'a R,
    alloc: Global,
    shards: &'a Shards<M>,
    pace: &'a P,
    walkers: &mut Vec<Walker<M>>,
    plan: Plan<'a>,
    mut seats: Vec<Seat<'a, ScriptSession<'a, M, P, R>>>,
    clock: u64,
) -> Vec<Seat<'a, ScriptSession<'a, M, P, R>>>
    requires count { vec_len walkers.old ≡ length plan.sessions.now + 1 }
    requires few { length plan.sessions.now ≤ 64 }
    requires splits { are_splits shards.now.splits ≡ true }
    requires new { (k : ℕ) (d : _) → k < length plan.sessions.now → IsNewWalker shards.now (suc k) 0 (slice_index_or walkers.old.items (suc k) d) }
    requires room { (vec_len seats ≡ 0) × (length plan.sessions.now ≤ vec_capacity seats) }
    ensures len { (vec_len walkers.new ≡ 1) × (vec_capacity walkers.new ≡ vec_capacity walkers.old) × (vec_len result ≡ length plan.entry.sessions.now) }
    ensures first { (d : _) → slice_index_or walkers.new.items 0 d ≡ slice_index_or walkers.old.items 0 d }
    ensures seated { (k : ℕ) (d : _) → k < length plan.entry.sessions.now → IsSeated shards.now clock plan.entry.sessions.now k (slice_index_or result.items k d).session.session.shards.now (slice_index_or result.items k d).session.session.walker (slice_index_or result.items k d).session.session.progress (slice_index_or result.items k d).session.session.saves.items (slice_index_or result.items k d).session.saves (slice_index_or result.items k d).transactions.now }
    ensures blank { (k : ℕ) (d : _) → k < length plan.entry.sessions.now → IsBlank (slice_index_or result.items k d).book }
    ensures keeps { (k : ℕ) (d : _) → k < length plan.entry.sessions.now → (slice_index_or result.items k d).book.keeps ≡ plan.entry.keeps_rows }
{
    let sessions = plan.sessions;
    let count = sessions.len();
    for taken in 0..count {
        let place = count - 1 - taken;
        let mut walker = walkers.pop().unwrap();
        walker.clock = clock;
        let book = blank_book(alloc, plan.keeps_rows);
        seats.push_reserved(Seat {
            session: ScriptSession::new(rt, alloc, shards, pace, walker),
            transactions: sessions[place].transactions(),
            ended: Ok(()),
            book,
        });
    }
    seats.reverse();
    seats
}

// The walkers of all seats go back behind walker 0, and their books are given out.
pub(crate) fn leave_seats<M: Flier, P: Pace, R: Wait>(
    walkers: &mut Vec<Walker<M>>,
    seats: Vec<Seat<'_, ScriptSession<'_, M, P, R>>>,
    books: &mut Vec<Book>,
)
    requires room { vec_len walkers.old + vec_len seats ≤ vec_capacity walkers.old }
    requires one { vec_len walkers.old ≡ 1 }
    requires none { (books.old.items ≡ []) × (vec_len books.old ≡ 0) }
    requires wide { vec_len seats ≤ vec_capacity books.old }
    ensures len { vec_len walkers.new ≡ vec_len seats.entry + 1 }
    ensures first { (d : _) → slice_index_or walkers.new.items 0 d ≡ slice_index_or walkers.old.items 0 d }
    ensures walkers { (k : ℕ) (d e : _) → k < vec_len seats.entry → slice_index_or walkers.new.items (suc k) d ≡ (slice_index_or seats.entry.items k e).session.session.walker }
    ensures many { vec_len books.new ≡ vec_len seats.entry }
    ensures books { (k : ℕ) (d e : _) → k < vec_len seats.entry → slice_index_or books.new.items k d ≡ (slice_index_or seats.entry.items k e).book }
{
    for seat in seats {
        let Seat { session, book, .. } = seat;
        walkers.push_reserved(session.into_walker());
        books.push_reserved(book);
    }
}

// The gravest of their ends, which is that of one of them, or fine.
pub(crate) fn gravest<C>(seats: &[Seat<'_, C>]) -> Result<(), StopCause>
    ensures one { IfErr result (λ cause. (k : ℕ) × (k < length seats.now) × ((d : _) → (slice_index_or seats.now k d).ended ≡ Err cause)) }
    ensures fine { IsOk result → (k : ℕ) (d : _) → k < length seats.now → IsOk (slice_index_or seats.now k d).ended }
{
    let mut end = Ok(());
    for seat in seats {
        end = graver(end, seat.ended);
    }
    end
}
