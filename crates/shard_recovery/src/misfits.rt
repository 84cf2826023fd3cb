// The first misfit.
ghost use Rattle.std.specs.Prelude.{◌≡◌, ◌≤◌, IfOk, length, take};
ghost use Rattle.clv_base.specs.State.{Shard as ShardIs};
ghost use Rattle.clv_base.specs.Restarts.{agrees_up_to, is_log_up_to, misfit as misfit_of};
ghost use Rattle.shard_recovery.specs.Fallen.{IsOf};

use crate::agreeing::{agreed_up_to, is_whole};
use crate::expecting::{greatest, restarted};
use clv_base::logs::LogRecord;
use std::alloc::{AllocError, Global};

/// A shard that went down: its number, its run and last epoch, its log, of which so many records were durable, and so many were durable or in flight.
#[derive(Clone, Copy)]
pub struct Fallen<'a> {
    pub shard: u32,
    pub run: u32,
    pub epoch: u64,
    pub log: &'a [LogRecord],
    pub durable: usize,
    pub taken: usize,
}

/// How far a log agrees with the one up to a RESTART, and whether it is that one.
#[derive(Clone, Copy)]
struct Agreement {
    is_whole: bool,
    upto: usize,
}

/// Compares a log with the one that restarts, the last of this epoch, make of the first records of a fallen shard's log.
fn compare(
    alloc: Global,
    fallen: Fallen<'_>,
    count: usize,
    log: &[LogRecord],
    epoch: u64,
) -> Result<Agreement, AllocError>
    requires { count ≤ length fallen.log.now }
    ensures whole { IfOk result (λ a. (s : ShardIs) → IsOf fallen.entry s → a.is_whole ≡ is_log_up_to s log.now (take count fallen.entry.log.now) epoch) }
    ensures upto { IfOk result (λ a. (s : ShardIs) → IsOf fallen.entry s → a.upto ≡ agrees_up_to s log.now (take count fallen.entry.log.now) epoch) }
{
    let found = &fallen.log[..count];
    let before = greatest(fallen.run, fallen.epoch, found);
    let buffer = restarted(alloc, fallen.shard, fallen.run, found)?;
    let end = buffer.end() - 1;
    let undone = buffer.records(0, end);
    let upto = agreed_up_to(log, undone, fallen.run, before, epoch);
    Ok(Agreement {
        is_whole: is_whole(upto, log.len(), undone.len(), before, epoch),
        upto,
    })
}

/// The first LSN by which a log that was found isn't one that restarts, the last of this epoch, may leave of a shard that went down; its end where
/// records are missing; none where it is one. Takes time linear in both logs, times a logarithm.
pub fn misfit(
    alloc: Global,
    fallen: Fallen<'_>,
    log: &[LogRecord],
    epoch: u64,
) -> Result<Option<u64>, AllocError>
    requires { (fallen.durable ≤ fallen.taken) × (fallen.taken ≤ length fallen.log.now) }
    ensures { IfOk result (λ first. (s : ShardIs) → IsOf fallen.entry s → first ≡ misfit_of s log.now epoch) }
{
    let without = compare(alloc, fallen, fallen.durable, log, epoch)?;
    if without.is_whole {
        return Ok(None);
    }
    let with = compare(alloc, fallen, fallen.taken, log, epoch)?;
    if with.is_whole {
        return Ok(None);
    }
    Ok(Some(without.upto.max(with.upto) as u64))
}
