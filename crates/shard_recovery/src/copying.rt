// A log, copied.

ghost use Rattle.std.specs.Prelude.{◌≡◌, IfOk};

use clv_base::lists::{Pairs, TxList};
use clv_base::logs::LogRecord;
use clv_base::names::TxId;
use clv_base::parts::ShardList;
use clv_base::values::{Value, copy_of};
use std::alloc::{AllocError, Global};

fn copy_txs(alloc: Global, list: &[TxId]) -> Result<Vec<TxId>, AllocError>
    ensures { IfOk result (λ v. v.items ≡ list.now) }
{
    let mut txs = Vec::new(alloc);
    for tx in list {
        txs.push(*tx)?;
    }
    Ok(txs)
}

fn copy_pairs(alloc: Global, list: &[(u64, Value)]) -> Result<Vec<(u64, Value)>, AllocError>
    ensures { IfOk result (λ v. v.items ≡ list.now) }
{
    let mut pairs = Vec::with_capacity(alloc, list.len())?;
    for pair in list {
        pairs.push((pair.0, pair.1.copy()))?;
    }
    Ok(pairs)
}

fn copy_shards(list: &ShardList) -> ShardList
    ensures { result ≡ list.now }
{
    let mut shards = ShardList::new();
    for shard in list.as_slice() {
        shards.push(*shard);
    }
    shards
}

fn copy_record(alloc: Global, found: &LogRecord) -> Result<LogRecord, AllocError>
    ensures { IfOk result (λ r. r ≡ found.now) }
{
    Ok(match found {
        LogRecord::Update {
            tx,
            key,
            before,
            after,
        } => LogRecord::Update {
            tx: *tx,
            key: *key,
            before: copy_of(before),
            after: copy_of(after),
        },
        LogRecord::Clr {
            tx,
            undo_next,
            key,
            after,
        } => LogRecord::Clr {
            tx: *tx,
            undo_next: *undo_next,
            key: *key,
            after: copy_of(after),
        },
        LogRecord::Prepare {
            tx,
            home,
            predecessors,
        } => LogRecord::Prepare {
            tx: *tx,
            home: *home,
            predecessors: TxList::new(copy_txs(alloc, predecessors.as_slice())?),
        },
        LogRecord::Commit { tx, parts } => LogRecord::Commit {
            tx: *tx,
            parts: copy_shards(parts),
        },
        LogRecord::Abort { tx } => LogRecord::Abort { tx: *tx },
        LogRecord::End { tx } => LogRecord::End { tx: *tx },
        LogRecord::Restart { run, epoch } => LogRecord::Restart {
            run: *run,
            epoch: *epoch,
        },
        LogRecord::Add { tx, key, by } => LogRecord::Add {
            tx: *tx,
            key: *key,
            by: *by,
        },
        LogRecord::Unadd {
            tx,
            undo_next,
            key,
            by,
        } => LogRecord::Unadd {
            tx: *tx,
            undo_next: *undo_next,
            key: *key,
            by: *by,
        },
        LogRecord::Forgotten => LogRecord::Forgotten,
        LogRecord::Check {
            run,
            epoch,
            upto,
            base,
        } => LogRecord::Check {
            run: *run,
            epoch: *epoch,
            upto: *upto,
            base: Pairs::new(copy_pairs(alloc, base.as_slice())?),
        },
    })
}

/// The same records again.
pub fn copy_log(alloc: Global, log: &[LogRecord]) -> Result<Vec<LogRecord>, AllocError>
    ensures { IfOk result (λ v. v.items ≡ log.now) }
{
    let mut copied = Vec::with_capacity(alloc, log.len())?;
    for found in log {
        copied.push(copy_record(alloc, found)?)?;
    }
    Ok(copied)
}
