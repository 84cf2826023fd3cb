// Sessions and their walkers.
ghost use Rattle.std.specs.Prelude.{◌≡◌, ◌<◌, ◌-◌, ◌++◌, ◌∷◌, [], take, slice_index_or, vec_len, vec_capacity};
ghost use Rattle.session_api.specs.declared.progress.Progress.TheVariants.{Idle};
ghost use Rattle.session_api.specs.Savepoints.{Saved};
ghost use Rattle.session_api.specs.Standing.{Holds};

use cluster_turns::{Shards, Walker};
use io_model::Pace;
use machine_calls::Flier;
use session_api::Session;
use std::alloc::Global;
use std::sync::Wait;

// A session of the last walker, which leaves the list.
pub(crate) fn sit<'a, M: Flier, P: Pace, R: Wait>(
    rt: &'a R,
    alloc: Global,
    shards: &'a Shards<M>,
    pace: &'a P,
    walkers: &mut Vec<Walker<M>>,
) -> Session<'a, M, P, R>
    requires some { 0 < vec_len walkers.old }
    requires session { (d : _) → Holds shards.now (slice_index_or walkers.old.items (vec_len walkers.old - 1) d) Idle }
    ensures session { Holds result.shards.now result.walker result.progress }
    ensures saved { Saved result.progress result.saves.items }
    ensures shards { result.shards.now ≡ shards.now }
    ensures idle { result.progress ≡ Idle }
    ensures walker { (d : _) → result.walker ≡ slice_index_or walkers.old.items (vec_len walkers.old - 1) d }
    ensures rest { walkers.new.items ≡ take (vec_len walkers.old - 1) walkers.old.items }
    ensures capacity { vec_capacity walkers.new ≡ vec_capacity walkers.old }
{
    let walker = walkers.pop().unwrap();
    Session::new(rt, alloc, shards, pace, walker)
}

// The session's walker goes to the end of the list.
pub(crate) fn leave<M: Flier, P: Pace, R: Wait>(
    walkers: &mut Vec<Walker<M>>,
    session: Session<'_, M, P, R>,
)
    requires room { vec_len walkers.old < vec_capacity walkers.old }
    ensures walkers { walkers.new.items ≡ walkers.old.items ++ session.entry.walker ∷ [] }
    ensures capacity { vec_capacity walkers.new ≡ vec_capacity walkers.old }
{
    walkers.push_reserved(session.into_walker());
}
