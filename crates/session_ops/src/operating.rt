// An operation on one shard, until it is answered.
ghost use Rattle.std.specs.Prelude.{◌≡◌, ◌<◌, ◌==◌, true, length};
ghost use Rattle.std.specs.Map.{lookup};
ghost use Rattle.clv_base.specs.declared.names.Birth.{Birth as BirthIs};
ghost use Rattle.clv_base.specs.declared.events.Event.TheVariants.{Op as OpEvent};
ghost use Rattle.clv_base.specs.Sessions.{is_number, lies_in};
ghost use Rattle.cluster_turns.specs.Walkers.{IsSameWalker};
ghost use Rattle.session_ops.specs.Rounds.{Rounded};
ghost use Rattle.session_ops.specs.Standing.{IsActive};
ghost use Rattle.session_ops.specs.Operated.{Operated, PlacedBy, StandsBy, answered_in, tried, refusal_of};

use crate::asking::ask;
use crate::patience::Patience;
use crate::{RoundError, round};
use cluster_turns::{Place, Shards, Walker};
use clv_base::causes::AbortCause;
use clv_base::events::Outcome;
use clv_base::ops::{Answer, Op};
use crossbeam_utils::Backoff;
use io_model::Pace;
use machine_calls::{Flier, Machine, StepError};
use std::alloc::Global;
use std::array;
use std::sync::Wait;
use std::sync::atomic::AtomicU64;
use std::time::Duration;
use turn_lock::Batch;

/// Why an operation wasn't answered.
#[derive(Clone, Copy, PartialEq, Eq)]
pub enum OpError {
    /// The transaction died of it.
    Aborted(AbortCause),
    /// The shard was found down: the operation's own or a touched one, or after a long wait any. The transaction stays active.
    Down { shard: u32 },
    Worn { at: u64 },
    Memory,
}

// What one try answers: none where it has to wait.
fn tried_by(shard: u32, answer: Result<Outcome, StepError>) -> Result<Option<Answer>, OpError>
    ensures { result ≡ tried shard answer }
{
    match answer {
        Ok(outcome) => match outcome {
            Outcome::Answered { answer, .. } => Ok(Some(answer)),
            Outcome::Dead(cause) => Err(OpError::Aborted(cause)),
            Outcome::Wait { .. } => Ok(None),
            Outcome::Crowded { .. } => Ok(None),
            _ => Err(OpError::Down { shard }),
        },
        Err(StepError::Memory) => Err(OpError::Memory),
        Err(StepError::Worn { at }) => Err(OpError::Worn { at }),
    }
}

// One try.
fn try_once<M: Machine, R: Wait>(
    rt: &R,
    alloc: Global,
    shards: &Shards<M>,
    walker: &mut Walker<M>,
    place: &mut Place,
    shard: u32,
    nth: u64,
    op: &Op,
) -> Result<Option<Answer>, OpError>
    requires active { IsActive shards.now walker.old place.old }
    requires shard { (shard < length shards.now.locks.items) × (shard < 16) }
    requires number { is_number place.old shard nth op.now ≡ true }
    requires lies { lies_in shards.now.splits shard op.now ≡ true }
    ensures walker { IsSameWalker walker.old walker.new }
    ensures turns { (birth : BirthIs) → place.old.birth ≡ Some birth → Operated walker.old.number walker.old.clock walker.old.passes.items shard (OpEvent place.old.tx birth nth (lookup (◌==◌ shard) place.old.touched) op.now) result walker.new.clock walker.new.passes.items }
    ensures place { PlacedBy shard nth op.now place.old result place.new }
    ensures stands { StandsBy shard shards.now walker.new place.new result }
{
    let answer = ask(rt, alloc, shards, walker, place, shard, nth, op);
    tried_by(shard, answer)
}

fn refused(error: RoundError) -> OpError
    ensures { result ≡ refusal_of error }
{
    match error {
        RoundError::Down { shard } => OpError::Down { shard },
        RoundError::Worn { at } => OpError::Worn { at },
        RoundError::Memory => OpError::Memory,
    }
}

// The shards that an operation needs: its own, and those that its transaction touched.
fn needed_by(place: &Place, shard: u32) -> [bool; 16] {
    array::from_fn(|n| n as u32 == shard || place.seen(n as u32).is_some())
}

// A round of a session whose transaction is active, once it is time for one.
fn pass_round<M: Flier, P: Pace, R: Wait>(
    rt: &R,
    alloc: Global,
    shards: &Shards<M>,
    walker: &mut Walker<M>,
    place: &Place,
    shard: u32,
    pace: &P,
    is_time: bool,
) -> Result<Option<Batch>, RoundError>
    requires active { IsActive shards.now walker.old place.now }
    ensures walker { IsSameWalker walker.old walker.new }
    ensures round { Rounded walker.old.number walker.old.clock walker.old.passes.items result walker.new.clock walker.new.passes.items }
    ensures stands { IsActive shards.now walker.new place.now }
{
    if is_time {
        let own = needed_by(place, shard);
        return round(rt, alloc, shards, walker, &own, pace);
    }
    Ok(None)
}

// One try, and where it has to wait a round, once it is time for one.
fn try_and_pass<M: Flier, P: Pace, R: Wait>(
    rt: &R,
    alloc: Global,
    shards: &Shards<M>,
    walker: &mut Walker<M>,
    place: &mut Place,
    shard: u32,
    nth: u64,
    op: &Op,
    pace: &P,
    is_time: bool,
) -> Result<Option<Answer>, OpError>
    requires active { IsActive shards.now walker.old place.old }
    requires shard { (shard < length shards.now.locks.items) × (shard < 16) }
    requires number { is_number place.old shard nth op.now ≡ true }
    requires lies { lies_in shards.now.splits shard op.now ≡ true }
    ensures walker { IsSameWalker walker.old walker.new }
    ensures turns { (birth : BirthIs) → place.old.birth ≡ Some birth → Operated walker.old.number walker.old.clock walker.old.passes.items shard (OpEvent place.old.tx birth nth (lookup (◌==◌ shard) place.old.touched) op.now) result walker.new.clock walker.new.passes.items }
    ensures place { PlacedBy shard nth op.now place.old result place.new }
    ensures stands { StandsBy shard shards.now walker.new place.new result }
{
    match try_once(rt, alloc, shards, walker, place, shard, nth, op) {
        Ok(None) => match pass_round(rt, alloc, shards, walker, place, shard, pace, is_time) {
            Ok(_) => Ok(None),
            Err(error) => Err(refused(error)),
        },
        Ok(Some(answer)) => Ok(Some(answer)),
        Err(error) => Err(error),
    }
}

// Of so many waits one makes a round.
const WAITS_PER_ROUND: u64 = 64;

// So many waits give way to whoever is ready to run; later ones sleep, as a client may think while it holds the lock.
const YIELDING: u64 = 1_000;

// Each sleep is so much longer than the one before, in microseconds, up to the longest.
const LONGER: u64 = 10;

const LONGEST: u64 = 1_000;

// Gives way behind a try that has to wait, after so many waits.
fn give_way<R: Wait>(rt: &R, backoff: &Backoff, waits: u64) {
    if waits <= YIELDING {
        backoff.snooze();
        return;
    }
    let nap = LONGEST.min((waits - YIELDING).saturating_mul(LONGER));
    AtomicU64::new(0).park_timeout(rt, 0, Duration::from_micros(nap));
}

/// One operation, or part scan, of the active transaction on one shard, until it is answered: while it has to wait it gives way, and makes a round after each
/// 64th try. Of a session's turns it takes only those of this operation. `Aborted` comes only where one of them died of that cause, and the transaction is
/// over then; `Down` only where a turn of the call found that shard down, which is the operation's own or comes after a wait; `Worn` only where a turn would
/// have had a stamp past the last. After these and `Memory` the transaction is active, and its place is as before. A shard that is down and that the
/// transaction hasn't touched ends the call only where it has waited some two seconds in rounds that moved nothing, or a tenth of a second once a session
/// has left its request standing: what it waits for may need that shard.
pub fn operate<M: Flier, P: Pace, R: Wait>(
    rt: &R,
    alloc: Global,
    shards: &Shards<M>,
    walker: &mut Walker<M>,
    place: &mut Place,
    shard: u32,
    nth: u64,
    op: &Op,
    pace: &P,
) -> Result<Answer, OpError>
    requires active { IsActive shards.now walker.old place.old }
    requires shard { (shard < length shards.now.locks.items) × (shard < 16) }
    requires number { is_number place.old shard nth op.now ≡ true }
    requires lies { lies_in shards.now.splits shard op.now ≡ true }
    ensures walker { IsSameWalker walker.old walker.new }
    ensures turns { (birth : BirthIs) → place.old.birth ≡ Some birth → Operated walker.old.number walker.old.clock walker.old.passes.items shard (OpEvent place.old.tx birth nth (lookup (◌==◌ shard) place.old.touched) op.now) (answered_in result) walker.new.clock walker.new.passes.items }
    ensures place { PlacedBy shard nth op.now place.old (answered_in result) place.new }
    ensures stands { StandsBy shard shards.now walker.new place.new (answered_in result) }
{
    let backoff = Backoff::new();
    let mut patience = Patience::new();
    let mut waits: u64 = 0;
    for _ in rt.forever() {
        if shards.is_lacking() {
            return Err(OpError::Memory);
        }
        waits = waits.wrapping_add(1);
        let is_time = waits % WAITS_PER_ROUND == 0;
        match try_and_pass(
            rt, alloc, shards, walker, place, shard, nth, op, pace, is_time,
        ) {
            Ok(Some(answer)) => return Ok(answer),
            Ok(None) => give_way(rt, &backoff, waits),
            Err(OpError::Down { shard: down }) => {
                if !patience.bears(rt, shards, &needed_by(place, shard), down) {
                    return Err(OpError::Down { shard: down });
                }
            }
            Err(error) => return Err(error),
        }
    }
    unreachable!()
}
