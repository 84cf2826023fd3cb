//! Threads that write in turns.
ghost use Rattle.std.specs.Prelude.{◌≡◌, ◌≢◌, ◌++◌, ◌≤◌, ℕ, [], ◌∷◌, IfOk, MatchBool, IsTrue};
ghost use Rattle.turn_lock.specs.Journals.{entries_by, durable_of};
ghost use Rattle.turn_lock.specs.Passes.{number, seen, own, passes_of, IsPassOf};
ghost use Rattle.session_examples.specs.Numbered.{written};

use crate::numbers::{Entry, Numbers};
use crate::turn_lock_closing::close_both;
use std::alloc::Global;
use std::sync::Wait;
use std::thread::{Threads, join};
use turn_lock::{Memory, PassOf, TurnLock};

// Writes an entry in a turn, and says whether there was memory.
pub(crate) fn write_one<R: Wait>(
    rt: &R,
    lock: &TurnLock<Numbers>,
    pass: PassOf<Numbers>,
    entry: Entry,
) -> (PassOf<Numbers>, bool)
    requires { IsPassOf lock.now pass × (number pass ≡ entry.walker) }
    ensures pass { IsPassOf lock.now result.0 × (number result.0 ≡ number pass) }
    ensures own { MatchBool result.1 (own result.0 ≡ own pass ++ entry ∷ []) (own result.0 ≡ own pass) }
    ensures found { IsTrue result.1 → entry.number ≤ durable_of (λ e. e.number) (seen result.0) }
{
    let (turn, mut value) = lock.enter(rt, pass);
    let wrote = value.write(entry).is_ok();
    (lock.leave(turn, value), wrote)
}

// Writes the numbers below `count`, each in a turn of its own, and says how many it wrote.
fn write_all<R: Wait>(
    rt: &R,
    lock: &TurnLock<Numbers>,
    mut pass: PassOf<Numbers>,
    walker: u64,
    count: u64,
) -> (PassOf<Numbers>, u64)
    requires { IsPassOf lock.now pass × (number pass ≡ walker) × (own pass ≡ []) }
    ensures { IsPassOf lock.now result.0 × (number result.0 ≡ walker) × (own result.0 ≡ written walker result.1) }
{
    for number in 0..count {
        let (next, wrote) = write_one(rt, lock, pass, Entry { walker, number });
        pass = next;
        if !wrote {
            return (pass, number);
        }
    }
    (pass, count)
}

/// Two threads write the numbers below `count`. The journal has of each thread what it wrote, in its order, each once, and nothing else.
pub fn write_both<R: Threads + Wait + Sync>(
    rt: &R,
    alloc: Global,
    count: u64,
) -> Result<(Numbers, u64, u64), Memory>
    ensures first { IfOk result (λ r. entries_by (λ e. e.walker) 0 r.0.entries.items ≡ written 0 r.1) }
    ensures second { IfOk result (λ r. entries_by (λ e. e.walker) 1 r.0.entries.items ≡ written 1 r.2) }
    ensures others { IfOk result (λ r. (w : ℕ) → w ≢ 0 → w ≢ 1 → entries_by (λ e. e.walker) w r.0.entries.items ≡ []) }
{
    let (lock, mut passes) = match TurnLock::new(alloc, Numbers::new(alloc, 7), 2) {
        Ok(made) => made,
        Err((memory, _)) => return Err(memory),
    };
    let two = passes.pop().unwrap();
    let one = passes.pop().unwrap();
    let shared = &lock;
    let (a, b) = join(
        rt,
        || -> (PassOf<Numbers>, u64)
            requires { IsPassOf shared.now one × (number one ≡ 0) × (own one ≡ []) }
            ensures { IsPassOf shared.entry.now result.0 × (number result.0 ≡ 0) × (own result.0 ≡ written 0 result.1) }
        { write_all(rt, shared, one, 0, count) },
        || -> (PassOf<Numbers>, u64)
            requires { IsPassOf shared.now two × (number two ≡ 1) × (own two ≡ []) }
            ensures { IsPassOf shared.entry.now result.0 × (number result.0 ≡ 1) × (own result.0 ≡ written 1 result.1) }
        { write_all(rt, shared, two, 1, count) },
    );
    let (one, first) = a;
    let (two, second) = b;
    Ok((close_both(lock, passes, one, two), first, second))
}
