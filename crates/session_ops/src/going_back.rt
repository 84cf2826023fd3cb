// A going back over all shards.
ghost use Rattle.std.specs.Prelude.{◌≡◌, true, suc, length};
ghost use Rattle.clv_base.specs.Backs.{stands_for_back};
ghost use Rattle.cluster_turns.specs.Walkers.{IsSameWalker};
ghost use Rattle.session_ops.specs.Standing.{IsActive};
ghost use Rattle.session_ops.specs.Parts.{StandsUnless};
ghost use Rattle.session_ops.specs.WentBack.{GoingBack, Rolling, has_died};
ghost use Rattle.session_ops.specs.Undone.{IsUndone, LeftBy, failed_as};

use crate::BackError;
use crate::rolling::{roll_if_noted, roll_on};
use cluster_turns::{Place, Shards, Walker};
use machine_calls::Machine;
use std::alloc::Global;
use std::sync::Wait;

/// Takes the active transaction back to where it was after its operations numbered up to `upto`, which no earlier going back went over: under its next
/// number one turn on each shard on which a later operation's write stands, shards rising; where none stands no turn, and no number. `Aborted` comes only
/// where the transaction died of one of them, and its other parts are dropped then. After `Down` and `Worn` it is active, what was taken away on lower shards
/// stays so, and it can't commit any more: on the shard on which it ended nothing can go back. It takes no memory.
pub fn roll_to<M: Machine, R: Wait>(
    rt: &R,
    alloc: Global,
    shards: &Shards<M>,
    walker: &mut Walker<M>,
    place: &mut Place,
    upto: u64,
) -> Result<(), BackError>
    requires active { IsActive shards.now walker.old place.old }
    requires stands { stands_for_back (suc place.old.nth) upto place.old.backs ≡ true }
    ensures walker { IsSameWalker walker.old walker.new }
    ensures told { GoingBack (length shards.now.locks.items) walker.old.number walker.old.clock walker.old.passes.items place.old upto result walker.new.clock walker.new.passes.items place.new }
    ensures stands { StandsUnless (has_died result) shards.now walker.new place.new }
    ensures left { LeftBy shards.now place.old upto result walker.new place.new }
{
    let nth = place.nth() + 1;
    for shard in 0..shards.splits().shards() {
        match roll_if_noted(rt, alloc, shards, walker, place, shard, nth, upto) {
            Ok(()) => {}
            Err(error) => return Err(error),
        }
    }
    Ok(())
}

/// Makes a going back that was left undone on a shard once more there, under the transaction's next number. It is never done: the shard is down still,
/// or up in another epoch, and then the transaction dies of it, and its other parts are dropped; or stamps are wanting.
pub fn roll_again<M: Machine, R: Wait>(
    rt: &R,
    alloc: Global,
    shards: &Shards<M>,
    walker: &mut Walker<M>,
    place: &mut Place,
    shard: u32,
    upto: u64,
) -> BackError
    requires active { IsActive shards.now walker.old place.old }
    requires undone { IsUndone shards.now walker.old place.old shard upto }
    ensures walker { IsSameWalker walker.old walker.new }
    ensures told { Rolling (length shards.now.locks.items) walker.old.number walker.old.clock walker.old.passes.items place.old (suc place.old.nth) upto shard (failed_as result) walker.new.clock walker.new.passes.items place.new }
    ensures stands { StandsUnless (has_died (failed_as result)) shards.now walker.new place.new }
    ensures left { LeftBy shards.now place.old upto (failed_as result) walker.new place.new }
{
    let nth = place.nth() + 1;
    match roll_on(rt, alloc, shards, walker, place, shard, nth, upto) {
        Ok(()) => unreachable!(),
        Err(error) => error,
    }
}
