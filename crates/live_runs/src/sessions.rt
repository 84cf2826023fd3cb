// A place for each session, with its walker.
ghost use Rattle.std.specs.Prelude.{◌≡◌, ◌<◌, ◌≤◌, ◌+◌, ℕ, suc, true, length, slice_index_or, vec_len, vec_capacity, Ok, Err, IfErr};
ghost use Rattle.clv_base.specs.Shards.{are_splits};
ghost use Rattle.cluster_opening.specs.Made.{IsNewWalker};
ghost use Rattle.command_line.specs.Running.{IsOk};
ghost use Rattle.live_runs.specs.Walked.{IsPlaced};

use cluster_turns::{Shards, Walker};
use command_line::graver;
use io_model::Pace;
use live_threads::Place;
use machine_calls::Flier;
use script_runs::StopCause;
use session_api::ScriptSession;
use std::alloc::Global;
use std::sync::Wait;

/// A place for each session, with its walker, which leaves the list of walkers, and has this clock from then on; walker 0 stays.
pub fn take_places<'a, M: Flier, P: Pace, R: Wait>(
    rt: &'a R,
    alloc: Global,
    shards: &'a Shards<M>,
    pace: &'a P,
    walkers: &mut Vec<Walker<M>>,
    sessions: usize,
    mut places: Vec<Place<ScriptSession<'a, M, P, R>>>,
    clock: u64,
) -> Vec<Place<ScriptSession<'a, M, P, R>>>
    requires count { vec_len walkers.old ≡ sessions + 1 }
    requires few { sessions ≤ 64 }
    requires splits { are_splits shards.now.splits ≡ true }
    requires new { (k : ℕ) (d : _) → k < sessions → IsNewWalker shards.now (suc k) 0 (slice_index_or walkers.old.items (suc k) d) }
    requires room { (vec_len places ≡ 0) × (sessions ≤ vec_capacity places) }
    ensures len { (vec_len walkers.new ≡ 1) × (vec_capacity walkers.new ≡ vec_capacity walkers.old) × (vec_len result ≡ sessions) }
    ensures first { (d : _) → slice_index_or walkers.new.items 0 d ≡ slice_index_or walkers.old.items 0 d }
    ensures placed { (k : ℕ) (d : _) → k < sessions → IsPlaced shards.now clock k (slice_index_or result.items k d).session.session.shards.now (slice_index_or result.items k d).session.session.walker (slice_index_or result.items k d).session.session.progress (slice_index_or result.items k d).session.session.saves.items (slice_index_or result.items k d).session.saves }
    ensures fine { (k : ℕ) (d : _) → k < sessions → (slice_index_or result.items k d).ended ≡ Ok (tt {0}) }
{
    for _ in 0..sessions {
        let mut walker = walkers.pop().unwrap();
        walker.clock = clock;
        places.push_reserved(Place {
            session: ScriptSession::new(rt, alloc, shards, pace, walker),
            ended: Ok(()),
        });
    }
    places.reverse();
    places
}

/// The walkers of all places go back behind walker 0.
pub fn leave_places<M: Flier, P: Pace, R: Wait>(
    walkers: &mut Vec<Walker<M>>,
    places: Vec<Place<ScriptSession<'_, M, P, R>>>,
)
    requires room { vec_len walkers.old + vec_len places ≤ vec_capacity walkers.old }
    requires one { vec_len walkers.old ≡ 1 }
    ensures len { vec_len walkers.new ≡ vec_len places.entry + 1 }
    ensures first { (d : _) → slice_index_or walkers.new.items 0 d ≡ slice_index_or walkers.old.items 0 d }
    ensures walkers { (k : ℕ) (d e : _) → k < vec_len places.entry → slice_index_or walkers.new.items (suc k) d ≡ (slice_index_or places.entry.items k e).session.session.walker }
{
    for place in places {
        let Place { session, ended: _ } = place;
        walkers.push_reserved(session.into_walker());
    }
}

/// The gravest of their ends, which is that of one of them, or fine.
pub fn gravest<C>(places: &[Place<C>]) -> Result<(), StopCause>
    ensures one { IfErr result (λ cause. (k : ℕ) × (k < length places.now) × ((d : _) → (slice_index_or places.now k d).ended ≡ Err cause)) }
    ensures fine { IsOk result → (k : ℕ) (d : _) → k < length places.now → IsOk (slice_index_or places.now k d).ended }
{
    let mut end = Ok(());
    for place in places {
        end = graver(end, place.ended);
    }
    end
}
