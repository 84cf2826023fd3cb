//! Turns in which the device leaves and comes back.
ghost use Rattle.std.specs.Prelude.{◌≡◌, ◌++◌, [], ◌∷◌, MatchOption};
ghost use Rattle.turn_lock.specs.Passes.{number, own, IsPassOf};
ghost use Rattle.session_examples.specs.Records.{events};

use crate::shard::{Record, Shard};
use std::sync::Wait;
use turn_lock::{PassOf, TurnLock};

/// A turn that takes the device out, with a mark, where it is in and there is memory for the mark. The walker holds the device with no turn held.
pub fn fetch<D, R: Wait>(
    rt: &R,
    lock: &TurnLock<Shard<D>>,
    pass: PassOf<Shard<D>>,
    walker: u64,
) -> (PassOf<Shard<D>>, Option<D>)
    requires { IsPassOf lock.now pass × (number pass ≡ walker) }
    ensures pass { IsPassOf lock.now result.0 × (number result.0 ≡ number pass) }
    ensures own { MatchOption result.1 (own result.0 ≡ own pass) (λ _. own result.0 ≡ own pass ++ Record.Mark walker ∷ []) }
    ensures events { events (own result.0) ≡ events (own pass) }
{
    let (turn, mut value) = lock.enter(rt, pass);
    let device = value.take_device(walker);
    (lock.leave(turn, value), device)
}

/// A turn that puts the device back, and adds nothing. It gives what was in its place.
pub fn give_back<D, R: Wait>(
    rt: &R,
    lock: &TurnLock<Shard<D>>,
    pass: PassOf<Shard<D>>,
    device: D,
) -> (PassOf<Shard<D>>, Option<D>)
    requires { IsPassOf lock.now pass }
    ensures pass { IsPassOf lock.now result.0 × (number result.0 ≡ number pass) }
    ensures own { own result.0 ≡ own pass }
{
    let (turn, mut value) = lock.enter(rt, pass);
    let other = value.put_device(device);
    (lock.leave(turn, value), other)
}
