// Rounds until nothing is left to do.
ghost use Rattle.std.specs.Prelude.{◌≡◌, ◌++◌, length};
ghost use Rattle.clv_base.specs.Journals.{History};
ghost use Rattle.cluster_turns.specs.Walkers.{IsWalker, IsSameWalker, kept};
ghost use Rattle.cluster_turns.specs.Rounds.{DrainTold};

use crate::rounds::{are_settled, go_round};
use crate::tending::DrainError;
use crate::{Shards, Walker};
use crossbeam_utils::Backoff;
use io_model::Pace;
use machine_calls::Flier;
use std::alloc::Global;
use std::sync::Wait;

/// Goes in rounds over all shards: each is flushed once, unless another walker writes a batch, and its messages are carried until there is none. Where a
/// round moved nothing, it sleeps until the other's batch is written, or, where nobody writes, asks once for what stayed due. `Ok` comes where
/// each shard, in the state that its pass has then seen, is up and has nothing buffered or in flight, no message to send, no closed part
/// undecided and no request that isn't decided and acknowledged; parts may be active. Between two rounds other threads have their turn.
///
/// `Down` comes where a turn of this call found the shard down or put it down, `Worn` where one needed a stamp past the last.
pub fn drain<M: Flier, P: Pace, R: Wait>(
    rt: &R,
    alloc: Global,
    shards: &Shards<M>,
    walker: &mut Walker<M>,
    pace: &P,
) -> Result<(), DrainError>
    requires walker { IsWalker shards.now walker.old }
    ensures walker { IsWalker shards.now walker.new × IsSameWalker walker.old walker.new }
    ensures drained { DrainTold (length shards.now.locks.items) walker.old.number walker.old.clock walker.old.passes.items result walker.new.clock walker.new.passes.items }
    ensures kept { (more : History) × (kept walker.new.passes.items ≡ kept walker.old.passes.items ++ more) }
{
    let backoff = Backoff::new();
    for _ in rt.forever() {
        if let Err(error) = go_round(rt, alloc, shards, walker, pace) {
            return Err(error);
        }
        if are_settled(rt, shards, walker) {
            return Ok(());
        }
        backoff.snooze();
    }
    unreachable!()
}
