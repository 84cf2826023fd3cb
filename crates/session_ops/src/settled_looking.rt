// One look, as a commit tells it.
ghost use Rattle.std.specs.Prelude.{◌≡◌, ◌<◌, length};
ghost use Rattle.cluster_turns.specs.Walkers.{IsSameWalker};
ghost use Rattle.session_ops.specs.Requested.{IsStanding};
ghost use Rattle.session_ops.specs.Settled.{Settling, PlacedBy, StandsBy, looked_as};

use crate::look;
use cluster_turns::{Place, Shards, Walker};
use clv_base::causes::AbortCause;
use clv_base::events::Outcome;
use clv_base::names::Point;
use machine_calls::{Machine, StepError};
use std::alloc::Global;
use std::sync::Wait;

/// Why a request wasn't acknowledged.
#[derive(Clone, Copy, PartialEq, Eq)]
pub enum SettleError {
    /// It was told that it is aborted.
    Aborted(AbortCause),
    /// A turn found the shard down: the home or a touched one, or after a long wait any, where nothing else moved. The request stands.
    Unsettled { shard: u32 },
    Worn { at: u64 },
    Memory,
}

// What one look answers: none where it has to wait.
fn looked_by(
    home: u32,
    clock: u64,
    answer: Result<Outcome, StepError>,
) -> Result<Option<Point>, SettleError>
    ensures { result ≡ looked_as home clock answer }
{
    match answer {
        Ok(outcome) => match outcome {
            Outcome::Acknowledged => Ok(Some(Point {
                stamp: clock,
                shard: home,
            })),
            Outcome::Aborted(cause) => Err(SettleError::Aborted(cause)),
            Outcome::NotYet => Ok(None),
            _ => Err(SettleError::Unsettled { shard: home }),
        },
        Err(StepError::Memory) => Err(SettleError::Memory),
        Err(StepError::Worn { at }) => Err(SettleError::Worn { at }),
    }
}

// One look.
pub(crate) fn look_once<M: Machine, R: Wait>(
    rt: &R,
    alloc: Global,
    shards: &Shards<M>,
    walker: &mut Walker<M>,
    place: &mut Place,
    home: u32,
) -> Result<Option<Point>, SettleError>
    requires standing { IsStanding shards.now walker.old place.old home }
    requires shard { home < length shards.now.locks.items }
    ensures walker { IsSameWalker walker.old walker.new }
    ensures turns { Settling (length shards.now.locks.items) walker.old.number walker.old.clock walker.old.passes.items home place.old result walker.new.clock walker.new.passes.items }
    ensures place { PlacedBy place.old result place.new }
    ensures stands { StandsBy shards.now walker.new place.new home result }
{
    let answer = look(rt, alloc, shards, walker, place, home);
    looked_by(home, walker.clock, answer)
}
