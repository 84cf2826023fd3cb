// Live sessions on a cluster that was opened.
ghost use Rattle.std.specs.Prelude.{◌≡◌, ◌<◌, ◌≤◌, ◌+◌, ℕ, suc, true, slice_index_or, vec_len, Ok, Err, IfOk};
ghost use Rattle.std.specs.List.{AllByRecursion};
ghost use Rattle.clv_base.specs.Shards.{are_splits};
ghost use Rattle.io_model.specs.Streams.{CountsReading};
ghost use Rattle.report_text.specs.Sinks.{Causes};
ghost use Rattle.cluster_opening.specs.Made.{IsNewWalker};
ghost use Rattle.cluster_turns.specs.Walkers.{kept};
ghost use Rattle.cluster_turns.specs.Dates.{last_seen};
ghost use Rattle.session_api.specs.Standing.{IsAtRest};
ghost use Rattle.script_runs.specs.Sessions.{session_entries};
ghost use Rattle.cluster_runs.specs.Drained.{SeeQuiet};
ghost use Rattle.cluster_runs.specs.Sessions.{HasWornLast};
ghost use Rattle.live_threads.specs.Lives.{Life, Streamed};
ghost use Rattle.live_runs.specs.Walked.{IsPlaced, HasWalked, HaveLived, AreDrained};

use crate::sessions::{gravest, leave_places, take_places};
use cluster_runs::{drain_all, drain_last};
use cluster_turns::{Shards, Walker};
use command_line::graver;
use io_model::{Pace, ReadError, Sink, Source};
use live_threads::{Place, Streams, serve_places};
use machine_calls::Flier;
use report_text::ReportError;
use script_runs::StopCause;
use session_api::ScriptSession;
use std::alloc::Global;
use std::sync::Wait;
use std::thread::Threads;

/// How live sessions ended, and their input and output.
#[derive(Clone, Copy)]
pub struct Served {
    pub end: Result<(), StopCause>,
    pub read: Result<(), ReadError>,
    pub written: Result<(), ReportError>,
}

// Nothing was read and nothing written.
fn served_nothing(cause: StopCause) -> Served
    ensures { (result.end ≡ Err cause) × (result.read ≡ Ok (tt {0})) × (result.written ≡ Ok (tt {0})) }
{
    Served {
        end: Err(cause),
        read: Ok(()),
        written: Ok(()),
    }
}

// The sessions of all places, whose walkers have this clock.
fn serve_placed<
    M: Flier + Send,
    P: Pace + Sync,
    R: Threads + Wait + Sync,
    S: Source,
    K: Sink + Send,
>(
    rt: &R,
    alloc: Global,
    shards: &Shards<M>,
    places: &mut Vec<Place<ScriptSession<'_, M, P, R>>>,
    clock: u64,
    source: &mut S,
    sink: &mut K,
) -> Streams
where
    M::Store: Send,
    M::Gate: Send,
    requires few { vec_len places.old ≤ 64 }
    requires placed { (k : ℕ) (d : _) → k < vec_len places.old → IsPlaced shards.now clock k (slice_index_or places.old.items k d).session.session.shards.now (slice_index_or places.old.items k d).session.session.walker (slice_index_or places.old.items k d).session.session.progress (slice_index_or places.old.items k d).session.session.saves.items (slice_index_or places.old.items k d).session.saves }
    requires fine { (k : ℕ) (d : _) → k < vec_len places.old → (slice_index_or places.old.items k d).ended ≡ Ok (tt {0}) }
    ensures len { vec_len places.new ≡ vec_len places.old }
    ensures lived { (lives : ℕ → Life) × ((k : ℕ) (d : _) → k < vec_len places.old → HasWalked shards.now clock k (lives (suc k)) (slice_index_or places.new.items k d).session.session.walker (slice_index_or places.new.items k d).ended) × Streamed (vec_len places.old) lives (S.left source.old) (S.left source.new) (K.taken sink.old) (K.taken sink.new) result.read result.written }
    ensures source { CountsReading (S.faults source.old) (S.faults source.new) result.read }
    ensures sink { Causes (K.faults sink.old) (K.faults sink.new) result.written }
{
    serve_places(rt, alloc, places, source, sink)
}

// So many sessions, whose walkers have this clock.
fn serve_sessions<
    M: Flier + Send,
    P: Pace + Sync,
    R: Threads + Wait + Sync,
    S: Source,
    K: Sink + Send,
>(
    rt: &R,
    alloc: Global,
    shards: &Shards<M>,
    pace: &P,
    walkers: &mut Vec<Walker<M>>,
    sessions: usize,
    clock: u64,
    source: &mut S,
    sink: &mut K,
) -> Served
where
    M::Store: Send,
    M::Gate: Send,
    requires count { vec_len walkers.old ≡ sessions + 1 }
    requires few { sessions ≤ 64 }
    requires splits { are_splits shards.now.splits ≡ true }
    requires new { (k : ℕ) (d : _) → k < sessions → IsNewWalker shards.now (suc k) 0 (slice_index_or walkers.old.items (suc k) d) }
    requires none { (d : _) → (slice_index_or walkers.old.items 0 d).serial ≡ 0 }
    ensures len { vec_len walkers.new ≡ vec_len walkers.old }
    ensures first { (d : _) → slice_index_or walkers.new.items 0 d ≡ slice_index_or walkers.old.items 0 d }
    ensures rest { (k : ℕ) (d : _) → k < sessions → IsAtRest shards.now (suc k) (slice_index_or walkers.new.items (suc k) d) }
    ensures lived { (lives : ℕ → Life) × HaveLived shards.now sessions walkers.new.items lives (S.left source.old) (S.left source.new) (K.taken sink.old) (K.taken sink.new) result.read result.written result.end }
    ensures later { (k : ℕ) (d : _) → k < sessions → AllByRecursion (λ e. clock < (e.1).stamp) (session_entries (kept (slice_index_or walkers.new.items (suc k) d).passes.items)) }
    ensures worn { (d : _) → clock ≤ last_seen (slice_index_or walkers.new.items 0 d).passes.items → HasWornLast walkers.new.items result.end }
    ensures source { CountsReading (S.faults source.old) (S.faults source.new) result.read }
    ensures sink { Causes (K.faults sink.old) (K.faults sink.new) result.written }
{
    let Ok(room) = Vec::with_capacity(alloc, sessions) else {
        return served_nothing(StopCause::Memory);
    };
    let mut places = take_places(rt, alloc, shards, pace, walkers, sessions, room, clock);
    let Streams { read, written } = serve_placed(
        rt,
        alloc,
        shards,
        &mut places,
        clock,
        source,
        sink,
    );
    let end = gravest(places.as_slice());
    leave_places(walkers, places);
    Served { end, read, written }
}

/// Live sessions, each with a new walker of its own, between two drains by walker 0. Where the first drain doesn't go well, nothing is read.
///
/// What its walker kept of a session is what the lines that it took ask for, in order, each with its reply, and its end. The lines are those that were read, and the
/// replies those that the sink took, as far as it took them; where all is fine and nothing failed, all of both. No clause says that sessions run beside each
/// other, or when an answer is written.
pub fn serve_over<
    M: Flier + Send,
    P: Pace + Sync,
    R: Threads + Wait + Sync,
    S: Source,
    K: Sink + Send,
>(
    rt: &R,
    alloc: Global,
    shards: &Shards<M>,
    pace: &P,
    walkers: &mut Vec<Walker<M>>,
    sessions: usize,
    source: &mut S,
    sink: &mut K,
) -> Served
where
    M::Store: Send,
    M::Gate: Send,
    requires count { vec_len walkers.old ≡ sessions + 1 }
    requires few { sessions ≤ 64 }
    requires splits { are_splits shards.now.splits ≡ true }
    requires new { (k : ℕ) (d : _) → k < sessions + 1 → IsNewWalker shards.now k 0 (slice_index_or walkers.old.items k d) }
    ensures len { vec_len walkers.new ≡ vec_len walkers.old }
    ensures rest { (k : ℕ) (d : _) → k < sessions + 1 → IsAtRest shards.now k (slice_index_or walkers.new.items k d) }
    ensures lived { (lives : ℕ → Life) × HaveLived shards.now sessions walkers.new.items lives (S.left source.old) (S.left source.new) (K.taken sink.old) (K.taken sink.new) result.read result.written result.end × AreDrained shards.now sessions walkers.new.items lives }
    ensures quiet { IfOk result.end (λ u. SeeQuiet shards.now walkers.new.items) }
    ensures worn { HasWornLast walkers.new.items result.end }
    ensures source { CountsReading (S.faults source.old) (S.faults source.new) result.read }
    ensures sink { Causes (K.faults sink.old) (K.faults sink.new) result.written }
{
    if let Err(cause) = drain_all(rt, alloc, shards, &mut walkers[0], pace) {
        return served_nothing(cause);
    }
    let clock = walkers[0].clock;
    let served = serve_sessions(
        rt, alloc, shards, pace, walkers, sessions, clock, source, sink,
    );
    let last = drain_last(rt, alloc, shards, walkers, pace, served.end.is_ok());
    Served {
        end: graver(served.end, last),
        read: served.read,
        written: served.written,
    }
}
