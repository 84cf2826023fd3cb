// A commit.
ghost use Rattle.std.specs.Prelude.{◌≡◌, ◌<◌, true, length};
ghost use Rattle.clv_base.specs.Sessions.{is_lowest, is_whole_now};
ghost use Rattle.cluster_turns.specs.Walkers.{IsSameWalker};
ghost use Rattle.session_ops.specs.Standing.{IsActive};
ghost use Rattle.session_ops.specs.Standings.{StandsAs};
ghost use Rattle.session_ops.specs.Decided.{committed_as};
ghost use Rattle.session_ops.specs.Committed.{next_as, Answering, Following, Committing, CommitTold, PointsAtRequest};

use crate::ended_leaving::{finish, leave_others};
use crate::{SettleError, request};
use cluster_turns::{Place, Shards, Walker};
use clv_base::causes::AbortCause;
use clv_base::events::Outcome;
use clv_base::names::Point;
use io_model::Pace;
use machine_calls::{Flier, StepError};
use std::alloc::Global;
use std::sync::Wait;

/// How a commit went well.
#[derive(Clone, Copy, PartialEq, Eq)]
pub enum Settled {
    /// It is acknowledged. Its request stands in the history at this point, which is the transaction's place in the serial one.
    Committed { point: Point },
    /// The transaction touched nothing.
    Empty,
}

/// Why a commit didn't.
#[derive(Clone, Copy, PartialEq, Eq)]
pub enum CommitError {
    /// The transaction died of its request, or was told that it is aborted.
    Aborted(AbortCause),
    /// The home was found down before the request was made. The transaction stays active.
    Down { shard: u32 },
    /// A turn after the request found the shard down: the home or a touched one, or after a long wait any, where nothing else moved. The request
    /// stands.
    Unsettled { shard: u32 },
    Worn { at: u64 },
    Memory,
}

/// What a commit came to.
#[derive(Clone, Copy, PartialEq, Eq)]
pub struct CommitEnd {
    pub answer: Result<Settled, CommitError>,
    /// The walker's clock behind its request: the stamp of that, where it was asked.
    pub stamp: u64,
}

// What a decision is, as the commit of a request at this point tells it.
fn committed_by(asked: Point, answer: Result<Point, SettleError>) -> Result<Settled, CommitError>
    ensures { result ≡ committed_as asked answer }
{
    match answer {
        Ok(_look) => Ok(Settled::Committed { point: asked }),
        Err(SettleError::Aborted(cause)) => Err(CommitError::Aborted(cause)),
        Err(SettleError::Unsettled { shard }) => Err(CommitError::Unsettled { shard }),
        Err(SettleError::Worn { at }) => Err(CommitError::Worn { at }),
        Err(SettleError::Memory) => Err(CommitError::Memory),
    }
}

// What is to be done by what the request was answered: look until it is decided, drop the other parts, or answer why it wasn't made.
#[derive(Clone, Copy)]
enum Next {
    Looks,
    Leaves(AbortCause),
    Refuses(CommitError),
}

fn next_by(home: u32, answer: &Result<Outcome, StepError>) -> Next
    ensures { result ≡ next_as home answer.now }
{
    match answer {
        Ok(Outcome::Asked) => Next::Looks,
        Ok(Outcome::Dead(cause)) => Next::Leaves(*cause),
        Ok(_) => Next::Refuses(CommitError::Down { shard: home }),
        Err(StepError::Memory) => Next::Refuses(CommitError::Memory),
        Err(StepError::Worn { at }) => Next::Refuses(CommitError::Worn { at: *at }),
    }
}

fn go_on<M: Flier, P: Pace, R: Wait>(
    rt: &R,
    alloc: Global,
    shards: &Shards<M>,
    walker: &mut Walker<M>,
    place: &mut Place,
    home: u32,
    pace: &P,
    asked: Point,
    next: Next,
) -> Result<Settled, CommitError>
    requires answering { Answering shards.now walker.old place.old home next }
    ensures walker { IsSameWalker walker.old walker.new }
    ensures turns { Following (length shards.now.locks.items) walker.old.number walker.old.clock walker.old.passes.items home place.old asked next result walker.new.clock walker.new.passes.items place.new }
    ensures stands { StandsAs shards.now walker.new place.new }
{
    match next {
        Next::Looks => {
            let decided = finish(rt, alloc, shards, walker, place, home, pace);
            committed_by(asked, decided)
        }
        Next::Leaves(cause) => {
            leave_others(rt, alloc, shards, walker, place, home);
            Err(CommitError::Aborted(cause))
        }
        Next::Refuses(error) => Err(error),
    }
}

// A commit at the lowest shard that the transaction touched.
fn commit_at<M: Flier, P: Pace, R: Wait>(
    rt: &R,
    alloc: Global,
    shards: &Shards<M>,
    walker: &mut Walker<M>,
    place: &mut Place,
    home: u32,
    pace: &P,
) -> CommitEnd
    requires active { IsActive shards.now walker.old place.old }
    requires whole { is_whole_now place.old ≡ true }
    requires lowest { is_lowest home place.old.touched ≡ true }
    ensures walker { IsSameWalker walker.old walker.new }
    ensures turns { Committing (length shards.now.locks.items) walker.old.number walker.old.clock walker.old.passes.items home place.old result.stamp result.answer walker.new.clock walker.new.passes.items place.new }
    ensures point { PointsAtRequest walker.new.passes.items place.old result.answer }
    ensures stands { StandsAs shards.now walker.new place.new }
{
    let answer = request(rt, alloc, shards, walker, place, home);
    // An entry made just now has the clock's stamp.
    let stamp = walker.clock;
    let asked = Point { stamp, shard: home };
    let next = next_by(home, &answer);
    let answer = go_on(rt, alloc, shards, walker, place, home, pace, asked, next);
    CommitEnd { answer, stamp }
}

/// Commits the active transaction, whose goings back were whole: one request at the lowest shard that it touched, then looks there until it is decided, with a wait and a round
/// after each that finds nothing decided; where it died or is aborted, its other parts are dropped. `Empty` comes exactly where it touched nothing.
/// Each answer is told by the turns of the call: `Down` only where the request found the home down. `Unsettled` comes only after the request, where a
/// turn found that shard down: the home, or, in a round after a wait, one that the transaction touched, or any where that round found each shard
/// down, or with nothing buffered and no message. After these two, `Worn` and `Memory` the transaction is active or its request stands, as the place
/// tells; [`finish`] goes on with a request that stands. The point of an acknowledged one is that of its request: members of the serial history stand
/// in the order of these.
pub fn commit<M: Flier, P: Pace, R: Wait>(
    rt: &R,
    alloc: Global,
    shards: &Shards<M>,
    walker: &mut Walker<M>,
    place: &mut Place,
    pace: &P,
) -> CommitEnd
    requires active { IsActive shards.now walker.old place.old }
    requires whole { is_whole_now place.old ≡ true }
    ensures walker { IsSameWalker walker.old walker.new }
    ensures turns { CommitTold (length shards.now.locks.items) walker.old place.old result.stamp result.answer walker.new place.new }
    ensures point { PointsAtRequest walker.new.passes.items place.old result.answer }
    ensures stands { StandsAs shards.now walker.new place.new }
{
    match place.home() {
        None => CommitEnd {
            answer: Ok(Settled::Empty),
            stamp: walker.clock,
        },
        Some(home) => commit_at(rt, alloc, shards, walker, place, home, pace),
    }
}
