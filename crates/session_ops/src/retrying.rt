// Trying a transaction again.
ghost use Rattle.std.specs.Prelude.{◌≡◌, ◌<◌, ◌^◌};
ghost use Rattle.clv_base.specs.Sessions.{SessionState, begun};
ghost use Rattle.session_ops.specs.Retried.{IsRetriable, RetriedBy};

use cluster_turns::{Place, Shards, Walker, WornClock};
use clv_base::names::{Birth, TxId};
use machine_calls::Machine;
use std::alloc::Global;
use std::sync::Wait;
use std::sync::atomic::AtomicU64;
use std::thread::yield_now;
use std::time::Duration;

// The place of a transaction of this run, whose number is one of 32 bits.
fn place_of(alloc: Global, run: u32, tx: TxId, birth: Birth) -> Place
    ensures place { (before : SessionState) → result ≡ begun before tx birth }
    ensures run { run < 2 ^ 32 }
{
    let _run = run;
    Place::begun(alloc, tx, birth)
}

// After so many tries the time between two tries is longest.
const MOST: u64 = 64;

// So many tries give way to whoever is ready to run; later ones sleep, so that they leave the processors to those that hold the locks.
const YIELDING: u64 = 4;

// The longest sleep, in microseconds. Many sessions over few keys sleep so long that the oldest gets on.
const LONGEST: u64 = 20_000;

// Gives way, ever longer after each try, so that those that hold the locks get on.
fn give_way<R: Wait>(rt: &R, tries: u64) {
    let tries = tries.min(MOST);
    if tries > YIELDING {
        let nap = Duration::from_micros(LONGEST.min(10 * tries * tries));
        AtomicU64::new(0).park_timeout(rt, 0, nap);
        return;
    }
    for _ in 0..8 * tries * tries {
        yield_now();
    }
}

/// Begins the next transaction of a session with the birth of its last one, which ended by an abort. It gives way before, longer
/// after each try and from the fifth on asleep, for 20 milliseconds at most, so that an older one that holds its locks gets on. `WornClock` comes exactly where the walker's clock is at its end.
pub fn retry<M: Machine, R: Wait>(
    rt: &R,
    alloc: Global,
    shards: &Shards<M>,
    walker: &mut Walker<M>,
    last: &Place,
) -> Result<Place, WornClock>
    requires retriable { IsRetriable shards.now walker.old last.now }
    ensures retried { RetriedBy (λ p. p) shards.now walker.old last.now result walker.new }
{
    let birth = last.birth();
    match shards.next_tx(walker) {
        Ok((tx, _)) => {
            give_way(rt, tx.serial.saturating_sub(birth.serial));
            Ok(place_of(alloc, tx.run, tx, birth))
        }
        Err(worn) => Err(worn),
    }
}
