// The first record of a log that breaks its rule.

ghost use Rattle.std.specs.Prelude.{◌≡◌, ◌<◌, length, None, IfOk, IfErr, OnOk};
ghost use Rattle.clv_base.specs.LogRules.{upto_of, disorder as first_disorder};
ghost use Rattle.log_analysis.specs.Facts.{Knows};
ghost use Rattle.log_rules.specs.Order.{Reads, Refuses, RefusesAt};

use crate::Memory;
use crate::error::OrderError;
use crate::index::Index;
use clv_base::logs::LogRecord;
use log_analysis::LogFacts;
use std::alloc::{AllocError, Global};

// The record at this LSN goes behind those of the index, if it fits there.
fn read(
    index: &mut Index,
    alloc: Global,
    records: &[LogRecord],
    lsn: usize,
) -> Result<(), OrderError>
    requires { lsn < length records.now }
    ensures ok { OnOk result (Reads index.old index.new records.now lsn) }
    ensures err { IfErr result (RefusesAt index.old records.now lsn) }
{
    let r = &records[lsn];
    if !index.takes(alloc, records, lsn, r)? {
        return Err(OrderError::Breaks(lsn as u64));
    }
    index.add(alloc, lsn, r)?;
    Ok(())
}

/// What a log without a checkpoint that is in order on this shard says of each transaction; else the first LSN whose record breaks its rule,
/// given the records before it. `Memory` comes for want of memory alone.
///
/// Each record takes some looks into hash maps and time logarithmic in the number of transactions, and a PREPARE and its
/// COMMIT that for each transaction that it lists. Beside that a write and its undoing take one step for each transaction without
/// a COMMIT that has writes at the key, and a PREPARE or COMMIT takes so many for each write of its transaction. Of what that needs
/// the answer alone is kept.
pub fn in_order(alloc: Global, records: &[LogRecord], shard: u32) -> Result<LogFacts, OrderError>
    requires plain { upto_of records.now ≡ 0 }
    ensures in_order { OnOk result (first_disorder shard records.now ≡ None) }
    ensures knows { IfOk result (λ facts. Knows facts records.now) }
    ensures refused { IfErr result (Refuses shard records.now) }
{
    let mut index = Index::new(alloc, shard, records)?;
    for lsn in 0..records.len() {
        read(&mut index, alloc, records, lsn)?;
    }
    Ok(index.into_facts())
}

/// The first LSN whose record breaks its rule; none where the log is in order on this shard. Takes the time of `in_order`.
pub fn disorder(alloc: Global, records: &[LogRecord], shard: u32) -> Result<Option<u64>, Memory>
    requires plain { upto_of records.now ≡ 0 }
    ensures { IfOk result (λ lsn. lsn ≡ first_disorder shard records.now) }
{
    match in_order(alloc, records, shard) {
        Ok(_facts) => Ok(None),
        Err(OrderError::Breaks(lsn)) => Ok(Some(lsn)),
        Err(OrderError::Memory) => Err(AllocError),
    }
}
