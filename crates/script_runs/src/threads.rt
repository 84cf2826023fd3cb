// The sessions of all seats.
ghost use Rattle.std.specs.Prelude.{◌≡◌, ◌<◌, ℕ, true, length, slice_index_or, IfErr};
ghost use Rattle.std.specs.List.{list_all};
ghost use Rattle.script_lang.specs.Laws.{is_narrow_body};
ghost use Rattle.script_runs.specs.Ran.{IsIdle};
ghost use Rattle.script_runs.specs.Books.{IsKept};
ghost use Rattle.script_runs.specs.Seen.{Keeps};
ghost use Rattle.script_runs.specs.Alone.{AllFollow, BeganAlone};
ghost use Rattle.script_runs.specs.declared.threads.Start.TheVariants.{FirstAlone};

use crate::SessionCalls;
use crate::behind::run_behind_first;
use crate::seats::{Seat, run_together};
use std::alloc::Global;
use std::sync::Wait;
use std::thread::Threads;

/// How the sessions of a script start.
#[derive(Clone, Copy)]
pub enum Start {
    /// All beside each other.
    Together,
    /// The first session's first transaction runs alone, and then all sessions beside each other.
    FirstAlone,
}

/// Runs the session of each seat on a thread of its own, each transaction in at most so many tries, or without a number until it is done. What a
/// session adds to its entries is as if it ran alone, and what stopped it has its grounds. Where the first transaction is to run alone, each entry
/// of another session has a stamp past all of its. Each book tells what its session's entries tell, and keeps its rows or not as before. Where no
/// thread can be made a session runs behind another one.
pub fn run_all<R: Threads + Wait + Sync, C: SessionCalls + Send>(
    rt: &R,
    alloc: Global,
    seats: &mut [Seat<'_, C>],
    most: Option<u32>,
    start: Start,
)
    requires session { (k : ℕ) (d : _) → k < length seats.old → C.holds (slice_index_or seats.old k d).session }
    requires idle { (k : ℕ) (d : _) → k < length seats.old → IsIdle (C.seen (slice_index_or seats.old k d).session) }
    requires narrow { (k : ℕ) (d : _) → k < length seats.old → list_all is_narrow_body (slice_index_or seats.old k d).transactions.now ≡ true }
    requires kept { (k : ℕ) (d : _) → k < length seats.old → IsKept (C.seen (slice_index_or seats.old k d).session) (slice_index_or seats.old k d).book }
    ensures session { (k : ℕ) (d : _) → k < length seats.old → C.holds (slice_index_or seats.new k d).session }
    ensures base { (k : ℕ) (d : _) → k < length seats.old → C.base (slice_index_or seats.new k d).session ≡ C.base (slice_index_or seats.old k d).session }
    ensures misses { (k : ℕ) (d : _) → k < length seats.old → Keeps (C.missed (slice_index_or seats.old k d).session) (C.missed (slice_index_or seats.new k d).session) }
    ensures transactions { (k : ℕ) (d : _) → k < length seats.old → (slice_index_or seats.new k d).transactions.now ≡ (slice_index_or seats.old k d).transactions.now }
    ensures follows { AllFollow C.seen C.missed most seats.old seats.new }
    ensures grounds { (k : ℕ) (d : _) → k < length seats.old → IfErr (slice_index_or seats.new k d).ended (C.grounds (slice_index_or seats.new k d).session) }
    ensures alone { start ≡ FirstAlone → BeganAlone C.seen most seats.old seats.new }
    ensures kept { (k : ℕ) (d : _) → k < length seats.old → IsKept (C.seen (slice_index_or seats.new k d).session) (slice_index_or seats.new k d).book }
    ensures keeps { (k : ℕ) (d : _) → k < length seats.old → (slice_index_or seats.new k d).book.keeps ≡ (slice_index_or seats.old k d).book.keeps }
{
    match start {
        Start::Together => run_together(rt, alloc, seats, most, 0),
        Start::FirstAlone => run_behind_first(rt, alloc, seats, most),
    }
}
