// Beginning a transaction.
ghost use Rattle.std.specs.Prelude.{◌≡◌, ◌<◌, ◌^◌};
ghost use Rattle.clv_base.specs.Sessions.{SessionState, begun};
ghost use Rattle.session_ops.specs.Beginnings.{IsIdle, BegunBy};

use cluster_turns::{Place, Shards, Walker, WornClock};
use clv_base::names::{Birth, TxId};
use machine_calls::Machine;
use std::alloc::Global;

// The place of a transaction of this run, whose number is one of 32 bits.
fn place_of(alloc: Global, run: u32, tx: TxId, birth: Birth) -> Place
    ensures place { (before : SessionState) → result ≡ begun before tx birth }
    ensures run { run < 2 ^ 32 }
{
    let _run = run;
    Place::begun(alloc, tx, birth)
}

/// Begins the next transaction of a session. `WornClock` comes exactly where the walker's clock is at its end.
pub fn begin<M: Machine>(
    alloc: Global,
    shards: &Shards<M>,
    walker: &mut Walker<M>,
) -> Result<Place, WornClock>
    requires idle { IsIdle shards.now walker.old }
    ensures begun { BegunBy (λ p. p) shards.now walker.old result walker.new }
{
    match shards.next_tx(walker) {
        Ok((tx, birth)) => Ok(place_of(alloc, tx.run, tx, birth)),
        Err(worn) => Err(worn),
    }
}
