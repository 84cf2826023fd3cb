// The sessions of a script, beside each other.
ghost use Rattle.std.specs.Prelude.{◌≡◌, ◌<◌, ◌≤◌, ◌+◌, ℕ, suc, true, List, [], length, slice_get, slice_index_or, vec_len, vec_capacity, Some};
ghost use Rattle.std.specs.List.{AllByRecursion, list_all};
ghost use Rattle.clv_base.specs.Shards.{are_splits};
ghost use Rattle.cluster_opening.specs.Made.{IsNewWalker};
ghost use Rattle.script_lang.specs.Laws.{is_narrow_body};
ghost use Rattle.cluster_turns.specs.Walkers.{kept};
ghost use Rattle.cluster_turns.specs.Dates.{last_seen};
ghost use Rattle.script_lang.specs.Bodies.{Body};
ghost use Rattle.script_runs.specs.Sessions.{session_entries};
ghost use Rattle.script_runs.specs.declared.threads.Start.TheVariants.{FirstAlone};
ghost use Rattle.session_api.specs.Standing.{IsAtRest};
ghost use Rattle.cluster_runs.specs.Alone.{AreAlone};
ghost use Rattle.cluster_runs.specs.PromisedSessions.{Went};
ghost use Rattle.cluster_runs.specs.Sessions.{IsSeated, HaveSat, SessionsGone, HasWornLast};
ghost use Rattle.cluster_runs.specs.Books.{IsBlank, WalkersHaveBooks};
ghost use Rattle.session_books.specs.Books.{IsBook};

use crate::Plan;
use crate::seats::{gravest, leave_seats, take_seats};
use cluster_turns::{Shards, Walker};
use io_model::Pace;
use machine_calls::Flier;
use script_runs::{Seat, StopCause, run_all};
use session_api::ScriptSession;
use session_books::books::Book;
use std::alloc::Global;
use std::sync::Wait;
use std::thread::Threads;

// Runs the sessions of all seats, whose walkers have this clock.
fn run_seats<M: Flier + Send, P: Pace + Sync, R: Threads + Wait + Sync>(
    rt: &R,
    alloc: Global,
    shards: &Shards<M>,
    plan: Plan<'_>,
    seats: &mut Vec<Seat<'_, ScriptSession<'_, M, P, R>>>,
    clock: u64,
)
where
    M::Store: Send,
    M::Gate: Send,
    requires count { vec_len seats.old ≡ length plan.sessions.now }
    requires narrow { list_all (list_all is_narrow_body) plan.sessions.now ≡ true }
    requires seated { (k : ℕ) (d : _) → k < length plan.sessions.now → IsSeated shards.now clock plan.sessions.now k (slice_index_or seats.old.items k d).session.session.shards.now (slice_index_or seats.old.items k d).session.session.walker (slice_index_or seats.old.items k d).session.session.progress (slice_index_or seats.old.items k d).session.session.saves.items (slice_index_or seats.old.items k d).session.saves (slice_index_or seats.old.items k d).transactions.now }
    requires blank { (k : ℕ) (d : _) → k < length plan.sessions.now → IsBlank (slice_index_or seats.old.items k d).book }
    requires keeps { (k : ℕ) (d : _) → k < length plan.sessions.now → (slice_index_or seats.old.items k d).book.keeps ≡ plan.keeps_rows }
    ensures len { vec_len seats.new ≡ vec_len seats.old }
    ensures alone { plan.entry.start ≡ FirstAlone → AreAlone shards.now plan.entry.most plan.entry.sessions.now (λ k d. (slice_index_or seats.new.items k d).session.session.walker) }
    ensures sat { HaveSat shards.now clock plan.entry.most plan.entry.sessions.now (λ k d. (slice_index_or seats.new.items k d).session.session.walker) (λ k d. (slice_index_or seats.new.items k d).ended) }
    ensures books { (k : ℕ) (d : _) → k < length plan.entry.sessions.now → IsBook (session_entries (kept (slice_index_or seats.new.items k d).session.session.walker.passes.items)) (slice_index_or seats.new.items k d).book }
    ensures keeps { (k : ℕ) (d : _) → k < length plan.entry.sessions.now → (slice_index_or seats.new.items k d).book.keeps ≡ plan.entry.keeps_rows }
{
    run_all(rt, alloc, seats.as_mut_slice(), plan.most, plan.start);
}

// Lets the sessions, numbered from 1, stay behind a shard's door between two turns: a script's thread waits for nothing there, where its pace holds nothing.
fn let_stay<M: Flier, P: Pace>(shards: &Shards<M>, pace: &P, sessions: usize) {
    if pace.never_holds() {
        shards.let_stay(sessions);
    }
}

// Runs each session with a walker of its own on a thread of its own, behind walker 0; what they make has stamps past the clock, and their books go
// into the list. Where there is no memory for their seats none is begun.
pub(crate) fn run_sessions<M: Flier + Send, P: Pace + Sync, R: Threads + Wait + Sync>(
    rt: &R,
    alloc: Global,
    shards: &Shards<M>,
    pace: &P,
    walkers: &mut Vec<Walker<M>>,
    plan: Plan<'_>,
    clock: u64,
    books: &mut Vec<Book>,
) -> Result<(), StopCause>
where
    M::Store: Send,
    M::Gate: Send,
    requires count { vec_len walkers.old ≡ length plan.sessions.now + 1 }
    requires few { length plan.sessions.now ≤ 64 }
    requires splits { are_splits shards.now.splits ≡ true }
    requires new { (k : ℕ) (d : _) → k < length plan.sessions.now → IsNewWalker shards.now (suc k) 0 (slice_index_or walkers.old.items (suc k) d) }
    requires narrow { list_all (list_all is_narrow_body) plan.sessions.now ≡ true }
    requires none { books.old.items ≡ [] }
    requires wide { length plan.sessions.now ≤ vec_capacity books.old }
    ensures len { vec_len walkers.new ≡ vec_len walkers.old }
    ensures first { (d : _) → slice_index_or walkers.new.items 0 d ≡ slice_index_or walkers.old.items 0 d }
    ensures rest { (k : ℕ) (d : _) → k < length plan.entry.sessions.now → IsAtRest shards.now (suc k) (slice_index_or walkers.new.items (suc k) d) }
    ensures went { (went : ℕ → Went) × SessionsGone shards.now plan.entry.most plan.entry.sessions.now walkers.new.items went result }
    ensures later { (k : ℕ) (d : _) → k < length plan.entry.sessions.now → AllByRecursion (λ e. clock < (e.1).stamp) (session_entries (kept (slice_index_or walkers.new.items (suc k) d).passes.items)) }
    ensures alone { plan.entry.start ≡ FirstAlone → AreAlone shards.now plan.entry.most plan.entry.sessions.now (λ k d. slice_index_or walkers.new.items (suc k) d) }
    ensures counted { (k : ℕ) (bodies : List Body) (d : _) → slice_get plan.entry.sessions.now k ≡ Some bodies → (slice_index_or walkers.new.items (suc k) d).serial ≤ length bodies + length (session_entries (kept (slice_index_or walkers.new.items (suc k) d).passes.items)) }
    ensures worn { (d : _) → clock ≤ last_seen (slice_index_or walkers.new.items 0 d).passes.items → HasWornLast walkers.new.items result }
    ensures books { WalkersHaveBooks walkers.new.items books.new.items }
    ensures keeps { AllByRecursion (λ b. b.keeps ≡ plan.entry.keeps_rows) books.new.items }
{
    let Ok(room) = Vec::with_capacity(alloc, plan.sessions.len()) else {
        return Err(StopCause::Memory);
    };
    let mut seats = take_seats(rt, alloc, shards, pace, walkers, plan, room, clock);
    let_stay(shards, pace, plan.sessions.len());
    run_seats(rt, alloc, shards, plan, &mut seats, clock);
    shards.let_stay(0);
    let end = gravest(seats.as_slice());
    leave_seats(walkers, seats, books);
    end
}
