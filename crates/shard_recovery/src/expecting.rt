// What a log must be.
ghost use Rattle.std.specs.Prelude.{◌≡◌, ◌++◌, ◌∷◌, ℕ, List, cond, ◌==◌, max, IfOk, length};
ghost use Rattle.clv_base.specs.declared.logs.LogRecord.{LogRecord as Rec};
ghost use Rattle.clv_base.specs.Restarts.{greatest_epoch, log_after_restart};

use crate::{copy_log, restart};
use clv_base::logs::LogRecord;
use log_analysis::analyse;
use log_buffer::LogBuffer;
use ordered_store::BlockStore;
use std::alloc::{AllocError, Global};

/// The greater of an epoch and that of a RESTART of this run, or of a checkpoint of it.
fn later(run: u32, so_far: u64, found: &LogRecord) -> u64
    ensures { (rest : List Rec) → greatest_epoch run so_far (found.now ∷ rest) ≡ greatest_epoch run result rest }
{
    match found {
        LogRecord::Restart { run: other, epoch }
        | LogRecord::Check {
            run: other,
            epoch,
            ..
        } if *other == run => so_far.max(*epoch),
        _ => so_far,
    }
}

/// The greatest epoch of the run in a log, and the shard's own.
pub(crate) fn greatest(run: u32, own: u64, log: &[LogRecord]) -> u64
    ensures { result ≡ greatest_epoch run own log.now }
{
    let mut so_far = own;
    for found in log {
        so_far = later(run, so_far, found);
    }
    so_far
}

/// The log after a restart of this run with epoch 0, in a buffer of its own.
pub(crate) fn restarted(
    alloc: Global,
    shard: u32,
    run: u32,
    log: &[LogRecord],
) -> Result<LogBuffer<LogRecord>, AllocError>
    ensures { IfOk result (λ b. b.records ≡ log_after_restart shard log.now run 0) }
{
    let found = copy_log(alloc, log)?;
    let analysis = analyse(alloc, &found, shard)?;
    let mut scratch = BlockStore::new(alloc)?;
    restart(alloc, &mut scratch, found, &analysis.losers, &[], run, 0)
}
