//! The horizon beside turns, on one thread.
ghost use Rattle.std.specs.Prelude.{◌≡◌, ◌<◌, ◌≤◌, ℕ, vec_len, slice_index_or};
ghost use Rattle.turn_lock.specs.Passes.{passes_of, IsNewPass};

use crate::numbers::{Entry, Numbers};
use crate::threads::write_one;
use crate::turn_lock_closing::close_both;
use std::sync::Wait;
use turn_lock::{PassOf, TurnLock};

/// What the second pass reads of the horizon, first before anything is published, then while the first holds a turn. Between them the first pass writes the number
/// and publishes it while the second holds a turn. It says too whether there was memory for the entry: without it nothing is published.
pub fn look_beside_turns<R: Wait>(
    rt: &R,
    lock: TurnLock<Numbers>,
    mut passes: Vec<PassOf<Numbers>>,
    number: u64,
) -> (Numbers, bool, u64, u64)
    requires all { (vec_len passes ≡ 2) × (passes_of lock ≡ 2) }
    requires passes { (k : ℕ) (d : _) → k < 2 → IsNewPass lock 7 k (slice_index_or passes.items k d) }
    ensures rises { result.2 ≤ result.3 }
{
    let mut two = passes.pop().unwrap();
    let one = passes.pop().unwrap();
    let before = lock.horizon(&mut two);
    let (mut one, wrote) = write_one(rt, &lock, one, Entry { walker: 0, number });
    let (turn, value) = lock.enter(rt, two);
    if wrote {
        lock.publish(&mut one, number);
    }
    let mut two = lock.leave(turn, value);
    let (turn, value) = lock.enter(rt, one);
    let after = lock.horizon(&mut two);
    let one = lock.leave(turn, value);
    (close_both(lock, passes, one, two), wrote, before, after)
}
