// The drains of a run.
ghost use Rattle.std.specs.Prelude.{◌≡◌, ◌<◌, ◌≤◌, ◌^◌, ◌-◌, ℕ, Err, IfOk, IfSome, IsTrue, length, slice_index_or, slice_set, vec_len};
ghost use Rattle.turn_lock.specs.Passes.{number, IsPassOf};
ghost use Rattle.cluster_turns.specs.Turns.{Turned};
ghost use Rattle.cluster_turns.specs.Walkers.{IsWalker, IsSameWalker, Walked};
ghost use Rattle.cluster_turns.specs.Rounds.{Rounds, SettledAt};
ghost use Rattle.script_runs.specs.declared.ends.StopCause.TheVariants.{Worn};
ghost use Rattle.session_api.specs.Standing.{IsAtRest};
ghost use Rattle.cluster_turns.specs.Dates.{IsDated, last_seen};
ghost use Rattle.cluster_runs.specs.Drained.{LookTold, WasSettled, IsWornDrain, SeesOn, HasLooked, HaveLooked, QuietAt, SeeQuiet, HasDrained};

use cluster_closing::end_promises::drains_land;
use cluster_closing::promises::{drains_fetch_none, drains_hold_none};
use cluster_turns::{DrainError, Home, Shards, Walker, drain};
use io_model::Pace;
use machine_calls::{Flier, Machine};
use machine_laws::{Note, Origin};
use script_runs::StopCause;
use std::alloc::Global;
use std::sync::Wait;
use turn_lock::{Pass, TurnLock};

// The last stamp is below it.
const WORN: u64 = 1 << 48;

// What a drain's end is to a run.
fn stop_of(error: DrainError) -> StopCause
    ensures { (at : ℕ) → result ≡ Worn at → (at ≡ 2 ^ 48) × IsWornDrain error }
{
    match error {
        DrainError::Down { shard } => StopCause::Down { shard },
        DrainError::Worn { .. } => StopCause::Worn { at: WORN },
        DrainError::Memory => StopCause::Memory,
    }
}

// What a look at a shard tells: whether nothing is left to do there but for active parts, whether no part is active besides, and its last stamp.
#[derive(Clone, Copy)]
pub(crate) struct Sight {
    pub(crate) settled: bool,
    pub(crate) quiet: bool,
    pub(crate) last: u64,
}

// A look at a shard, by a turn that makes no entry.
fn survey<M: Machine, R: Wait>(
    rt: &R,
    lock: &TurnLock<Home<M>>,
    pass: Pass<Home<M>, Note, Origin>,
    walker: u32,
) -> (Pass<Home<M>, Note, Origin>, Sight)
    requires pass { IsPassOf lock.now pass × (number pass ≡ walker) }
    ensures pass { IsPassOf lock.now result.0 }
    ensures turned { Turned (LookTold result.1) walker pass result.0 }
{
    let (turn, home) = lock.enter(rt, pass);
    let settled = home.machine.is_settled();
    let quiet = settled && home.machine.is_inactive();
    let last = home.machine.last();
    let sight = Sight {
        settled,
        quiet,
        last,
    };
    (lock.leave(turn, home), sight)
}

// The same of a shard of a cluster.
fn look<M: Machine, R: Wait>(
    rt: &R,
    shards: &Shards<M>,
    walker: &mut Walker<M>,
    shard: u32,
) -> Sight
    requires walker { IsWalker shards.now walker.old }
    requires shard { shard < length shards.now.locks.items }
    ensures walker { IsWalker shards.now walker.new × IsSameWalker walker.old walker.new × (walker.new.clock ≡ walker.old.clock) }
    ensures looked { Walked (LookTold result) shard walker.old.number walker.old.passes.items walker.new.passes.items }
{
    let place = shard as usize;
    let pass = walker.passes[place].take().unwrap();
    let (pass, sight) = survey(rt, &shards.locks[place], pass, walker.number);
    walker.passes[place] = Some(pass);
    sight
}

// Where each shard is settled, as the walker sees it now, a stamp that no shard's last one is past.
fn last_if_settled<M: Machine, R: Wait>(
    rt: &R,
    shards: &Shards<M>,
    walker: &mut Walker<M>,
) -> Option<u64>
    requires walker { IsWalker shards.now walker.old }
    ensures walker { IsWalker shards.now walker.new × IsSameWalker walker.old walker.new }
    ensures looked { Rounds (length shards.now.locks.items) walker.old.number walker.old.clock walker.old.passes.items walker.new.clock walker.new.passes.items }
    ensures settled { IfSome result (λ last. (n : ℕ) → n < length shards.now.locks.items → SettledAt n walker.new.passes.items × WasSettled n last walker.new.passes.items) }
    ensures seen { IfSome result (λ last. last ≤ last_seen walker.new.passes.items) }
    ensures clock { walker.new.clock ≡ walker.old.clock }
    ensures sees { SeesOn walker.old.passes.items walker.new.passes.items }
{
    let mut most: u64 = 0;
    for shard in 0..shards.splits.shards() {
        let sight = look(rt, shards, walker, shard);
        if !sight.settled {
            return None;
        }
        most = most.max(sight.last);
    }
    Some(most)
}

/// Drains all shards by walker 0, until it has seen each settled; what it makes from then on has stamps past those that it has seen, as its clock tells.
pub fn drain_all<M: Flier, P: Pace, R: Wait>(
    rt: &R,
    alloc: Global,
    shards: &Shards<M>,
    walker: &mut Walker<M>,
    pace: &P,
) -> Result<(), StopCause>
    requires rest { IsAtRest shards.now 0 walker.old }
    ensures rest { IsAtRest shards.now 0 walker.new }
    ensures settled { IfOk result (λ u. (n : ℕ) → n < length shards.now.locks.items → WasSettled n walker.new.clock walker.new.passes.items) }
    ensures stays { (n clock : ℕ) → WasSettled n clock walker.old.passes.items → WasSettled n clock walker.new.passes.items }
    ensures dated { IsDated walker.old.clock walker.old.passes.items walker.new.clock walker.new.passes.items }
    ensures serial { walker.new.serial ≡ walker.old.serial }
    ensures worn { (at : ℕ) → result ≡ Err (Worn at) → (at ≡ 2 ^ 48) × (2 ^ 48 - 1 ≤ walker.new.clock) }
{
    drains_land::<Home<M>>();
    drains_hold_none::<Home<M>>();
    drains_fetch_none::<Home<M>>();
    for _ in rt.forever() {
        if let Err(error) = drain(rt, alloc, shards, walker, pace) {
            return Err(stop_of(error));
        }
        if let Some(last) = last_if_settled(rt, shards, walker) {
            walker.clock = walker.clock.max(last);
            return Ok(());
        }
    }
    unreachable!()
}

// Whether each shard is settled and no part of it is active, as the walker sees it now.
fn are_quiet<M: Machine, R: Wait>(rt: &R, shards: &Shards<M>, walker: &mut Walker<M>) -> bool
    requires walker { IsWalker shards.now walker.old }
    ensures walker { IsWalker shards.now walker.new × IsSameWalker walker.old walker.new }
    ensures looked { Rounds (length shards.now.locks.items) walker.old.number walker.old.clock walker.old.passes.items walker.new.clock walker.new.passes.items }
    ensures quiet { IsTrue result → (n : ℕ) → n < length shards.now.locks.items → QuietAt n walker.new.passes.items }
    ensures clock { walker.new.clock ≡ walker.old.clock }
    ensures sees { SeesOn walker.old.passes.items walker.new.passes.items }
{
    for shard in 0..shards.splits.shards() {
        let sight = look(rt, shards, walker, shard);
        if !sight.quiet {
            return false;
        }
    }
    true
}

// Looks by a walker until it has seen each shard quiet. Behind a drain, once no session has a transaction left, its first look is enough.
fn see_quiet<M: Flier, R: Wait>(rt: &R, shards: &Shards<M>, walker: &mut Walker<M>)
    requires walker { IsWalker shards.now walker.old }
    ensures looked { HasLooked shards.now walker.old walker.new }
    ensures quiet { (n : ℕ) → n < length shards.now.locks.items → QuietAt n walker.new.passes.items }
{
    drains_land::<Home<M>>();
    drains_hold_none::<Home<M>>();
    drains_fetch_none::<Home<M>>();
    for _ in rt.forever() {
        if are_quiet(rt, shards, walker) {
            return;
        }
    }
    unreachable!()
}

// Looks so by each walker.
fn all_see_quiet<M: Flier, R: Wait>(rt: &R, shards: &Shards<M>, walkers: &mut Vec<Walker<M>>)
    requires walkers { (k : ℕ) (d : _) → k < length walkers.old.items → IsWalker shards.now (slice_index_or walkers.old.items k d) }
    ensures len { vec_len walkers.new ≡ vec_len walkers.old }
    ensures looked { HaveLooked shards.now walkers.old.items walkers.new.items }
    ensures quiet { SeeQuiet shards.now walkers.new.items }
{
    for place in 0..walkers.len() {
        see_quiet(rt, shards, &mut walkers[place]);
    }
}

/// Drains all shards by walker 0, behind all that the other walkers do. Where all sessions went through, so that none has an active part any more, each walker
/// has then seen each shard quiet, so that nothing came behind it.
pub fn drain_last<M: Flier, P: Pace, R: Wait>(
    rt: &R,
    alloc: Global,
    shards: &Shards<M>,
    walkers: &mut Vec<Walker<M>>,
    pace: &P,
    well: bool,
) -> Result<(), StopCause>
    requires some { 0 < vec_len walkers.old }
    requires rest { (k : ℕ) (d : _) → k < length walkers.old.items → IsAtRest shards.now k (slice_index_or walkers.old.items k d) }
    ensures len { vec_len walkers.new ≡ vec_len walkers.old }
    ensures drained { (v : _) × ((d : _) → HasDrained shards.now (slice_index_or walkers.old.items 0 d) v result) × HaveLooked shards.now (slice_set walkers.old.items 0 v) walkers.new.items }
    ensures quiet { IsTrue well → IfOk result (λ u. SeeQuiet shards.now walkers.new.items) }
{
    let drained = drain_all(rt, alloc, shards, &mut walkers[0], pace);
    if drained.is_err() {
        return drained;
    }
    if !well {
        return drained;
    }
    all_see_quiet(rt, shards, walkers);
    drained
}
