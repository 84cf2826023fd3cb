// What a run does with a cluster that was opened.
ghost use Rattle.std.specs.Prelude.{◌≡◌, ◌<◌, ◌≤◌, ◌+◌, ℕ, suc, true, [], length, slice_index_or, vec_len, vec_capacity, IfOk};
ghost use Rattle.std.specs.List.{AllByRecursion, list_all};
ghost use Rattle.clv_base.specs.Shards.{are_splits};
ghost use Rattle.cluster_opening.specs.Made.{IsNewWalker};
ghost use Rattle.script_lang.specs.Laws.{is_narrow_body};
ghost use Rattle.script_runs.specs.declared.threads.Start.TheVariants.{FirstAlone};
ghost use Rattle.session_api.specs.Standing.{IsAtRest};
ghost use Rattle.cluster_runs.specs.PromisedSessions.{Went};
ghost use Rattle.cluster_runs.specs.Sessions.{SessionsGone, AreCounted, HasWornLast};
ghost use Rattle.cluster_runs.specs.Books.{WalkersHaveBooks};
ghost use Rattle.cluster_runs.specs.Drained.{AreDrained, SeeQuiet};
ghost use Rattle.cluster_runs.specs.Alone.{AreAlone};

use crate::Plan;
use crate::draining::{drain_all, drain_last};
use crate::sessions::run_sessions;
use cluster_turns::{Shards, Walker};
use command_line::graver;
use io_model::Pace;
use machine_calls::Flier;
use script_runs::StopCause;
use session_books::books::Book;
use std::alloc::Global;
use std::sync::Wait;
use std::thread::Threads;

/// Runs the sessions of a script, each with a new walker of its own and each transaction in at most so many tries, between two drains by walker 0.
///
/// What its walker kept of a session is its transactions in order, each in its tries, or nothing where it wasn't begun. The end is fine only where
/// each session went through, and worn only where the walkers came to the last stamp. Where one was begun, walker 0 has seen each shard settled
/// before it, and what the sessions made has stamps past those that it had seen. Where the end is fine, each walker has seen each shard settled in
/// the end, with no active part. Where the first transaction is to run alone, what other sessions made has stamps past all of its. The books of the
/// sessions that were begun go into the list, each of what its walker kept, with its rows where the plan keeps them. No clause says that sessions
/// run beside each other.
pub fn run_over<M: Flier + Send, P: Pace + Sync, R: Threads + Wait + Sync>(
    rt: &R,
    alloc: Global,
    shards: &Shards<M>,
    pace: &P,
    walkers: &mut Vec<Walker<M>>,
    plan: Plan<'_>,
    books: &mut Vec<Book>,
) -> Result<(), StopCause>
where
    M::Store: Send,
    M::Gate: Send,
    requires count { vec_len walkers.old ≡ length plan.sessions.now + 1 }
    requires few { length plan.sessions.now ≤ 64 }
    requires splits { are_splits shards.now.splits ≡ true }
    requires new { (k : ℕ) (d : _) → k < length plan.sessions.now + 1 → IsNewWalker shards.now k 0 (slice_index_or walkers.old.items k d) }
    requires narrow { list_all (list_all is_narrow_body) plan.sessions.now ≡ true }
    requires none { books.old.items ≡ [] }
    requires wide { length plan.sessions.now ≤ vec_capacity books.old }
    ensures len { vec_len walkers.new ≡ vec_len walkers.old }
    ensures rest { (k : ℕ) (d : _) → k < length plan.entry.sessions.now + 1 → IsAtRest shards.now k (slice_index_or walkers.new.items k d) }
    ensures went { (went : ℕ → Went) × SessionsGone shards.now plan.entry.most plan.entry.sessions.now walkers.new.items went result × AreDrained shards.now (length plan.entry.sessions.now) walkers.new.items went }
    ensures quiet { IfOk result (λ u. SeeQuiet shards.now walkers.new.items) }
    ensures alone { plan.entry.start ≡ FirstAlone → AreAlone shards.now plan.entry.most plan.entry.sessions.now (λ k d. slice_index_or walkers.new.items (suc k) d) }
    ensures counted { AreCounted plan.entry.sessions.now walkers.new.items }
    ensures worn { HasWornLast walkers.new.items result }
    ensures books { WalkersHaveBooks walkers.new.items books.new.items }
    ensures keeps { AllByRecursion (λ b. b.keeps ≡ plan.entry.keeps_rows) books.new.items }
{
    let first = drain_all(rt, alloc, shards, &mut walkers[0], pace);
    if first.is_err() {
        return first;
    }
    let clock = walkers[0].clock;
    let ran = run_sessions(rt, alloc, shards, pace, walkers, plan, clock, books);
    let last = drain_last(rt, alloc, shards, walkers, pace, ran.is_ok());
    graver(ran, last)
}
