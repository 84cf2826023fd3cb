//! The transactions of a shard after a restart.
ghost use Rattle.std.specs.Prelude.{◌≡◌, ◌≤◌, ◌+◌, [], true, map, length, OnOk, IfOk, if◌then◌else◌};
ghost use Rattle.std.specs.List.{filter, list_all};
ghost use Rattle.std.specs.List.Sorted.{IsStrictlySortedBy};
ghost use Rattle.clv_base.specs.declared.names.TxId.{TxId as Tx};
ghost use Rattle.clv_base.specs.FileRules.{has_spelling};
ghost use Rattle.clv_base.specs.Logs.{in_doubt as in_doubt_in, has_standing, standing};
ghost use Rattle.clv_base.specs.Orders.{tx_in, tx_same, tx_cmp, pair_cmp};
ghost use Rattle.clv_base.specs.Restarts.{homes_of, local_after, restored_locks, restored_pairs, restored_parts};
ghost use Rattle.txn_core.specs.Sound.{owed_by};
ghost use Rattle.txn_core.specs.State.{AreSettled};

use crate::deps::deps_of;
use crate::locks::locks_of;
use crate::parts::{firsts, parts_of};
use cascade_undo::Deps;
use clv_base::logs::LogRecord;
use clv_base::names::TxId;
use lock_table::{Locks, Memory};
use log_analysis::TxSet;
use log_buffer::LogBuffer;
use ordered_store::Store;
use protocol_laws::events::restarts_end_at_rest;
use std::alloc::{AllocError, Global};
use tx_table::PartTable;
use txn_core::ShardTx;

/// How many records the undo of a transaction may write: a CLR or UNADD for each of its writes that stand, and an ABORT where there is one.
fn owed_to_one(buffer: &LogBuffer<LogRecord>, tx: TxId) -> Result<usize, AllocError>
    ensures { IfOk result (λ count. count ≡ length (filter (λ w. tx_same tx w.tx) (standing buffer.now.records)) + (if has_standing buffer.now.records tx then 1 else 0)) }
{
    let clrs = buffer.standing_writes(tx);
    if buffer.has_standing(tx) {
        return clrs.checked_add(1).ok_or(AllocError);
    }
    Ok(clrs)
}

/// So of these together.
fn owed_to(buffer: &LogBuffer<LogRecord>, txs: &[TxId]) -> Result<usize, AllocError>
    requires { IsStrictlySortedBy tx_cmp txs.now }
    ensures { IfOk result (λ count. count ≡ owed_by (λ t. tx_in t txs.now) buffer.now.records) }
{
    let mut count: usize = 0;
    for tx in txs {
        let own = owed_to_one(buffer, *tx)?;
        count = count.checked_add(own).ok_or(AllocError)?;
    }
    Ok(count)
}

/// Makes room for these.
fn reserve_undo(buffer: &mut LogBuffer<LogRecord>, txs: &[TxId]) -> Result<(), AllocError>
    requires { IsStrictlySortedBy tx_cmp txs.now }
    ensures ok { OnOk result (owed_by (λ t. tx_in t txs.now) buffer.old.records ≤ buffer.new.room) }
    ensures records { buffer.new.records ≡ buffer.old.records }
    ensures fronts { (buffer.new.durable ≡ buffer.old.durable) × (buffer.new.taken ≡ buffer.old.taken) }
{
    let count = owed_to(buffer, txs)?;
    buffer.reserve(count)
}

/// Those in doubt, as a list and as a set.
#[derive(Drop)]
struct Doubtful {
    txs: Vec<TxId>,
    set: TxSet,
}

fn doubtful_of(alloc: Global, in_doubt: &[(TxId, u32)]) -> Result<Doubtful, Memory>
    ensures list { IfOk result (λ d. d.txs.items ≡ map (λ t. t.0) in_doubt.now) }
    ensures set { IfOk result (λ d. (t : Tx) → tx_in t d.set ≡ tx_in t d.txs.items) }
{
    let Ok(txs) = firsts(alloc, in_doubt) else {
        return Err(Memory);
    };
    let Ok(set) = TxSet::of(alloc, &txs) else {
        return Err(Memory);
    };
    Ok(Doubtful { txs, set })
}

/// What a restart leaves of those in doubt.
#[derive(Drop)]
struct Left<L: Locks + Drop> {
    locks: L,
    parts: PartTable,
    deps: Deps,
}

/// The locks, the parts and the dependencies of those in doubt, which are given as a list and as a set.
fn left_of<L: Locks + Drop>(
    alloc: Global,
    txs: &[TxId],
    doubtful: &TxSet,
    pairs: &[(TxId, TxId)],
    log: &[LogRecord],
) -> Result<Left<L>, Memory>
    requires same { (t : Tx) → tx_in t doubtful.now ≡ tx_in t txs.now }
    requires rising { IsStrictlySortedBy tx_cmp txs.now }
    requires pairs { IsStrictlySortedBy pair_cmp pairs.now }
    ensures locks { IfOk result (λ m. L.rows m.locks ≡ restored_locks txs.now (standing log.now) []) }
    ensures parts { IfOk result (λ m. m.parts.entries ≡ restored_parts txs.now) }
    ensures pairs { IfOk result (λ m. m.deps.pairs ≡ pairs.now) }
    ensures settled { IfOk result (λ m. AreSettled m.deps.commits log.now) }
{
    let Ok(parts) = parts_of(alloc, txs) else {
        return Err(Memory);
    };
    let locks = locks_of(alloc, txs, doubtful, log)?;
    let Ok(deps) = deps_of(alloc, pairs, log) else {
        return Err(Memory);
    };
    Ok(Left { locks, parts, deps })
}

/// The same of those in doubt, whose names rise, by the log itself, which gets room to undo them.
fn left_in<L: Locks + Drop>(
    alloc: Global,
    buffer: &mut LogBuffer<LogRecord>,
    in_doubt: &[(TxId, u32)],
    pairs: &[(TxId, TxId)],
) -> Result<Left<L>, Memory>
    requires rising { IsStrictlySortedBy tx_cmp (map (λ d. d.0) in_doubt.now) }
    requires pairs { IsStrictlySortedBy pair_cmp pairs.now }
    ensures locks { IfOk result (λ m. L.rows m.locks ≡ restored_locks (map (λ d. d.0) in_doubt.now) (standing buffer.old.records) []) }
    ensures parts { IfOk result (λ m. m.parts.entries ≡ restored_parts (map (λ d. d.0) in_doubt.now)) }
    ensures pairs { IfOk result (λ m. m.deps.pairs ≡ pairs.now) }
    ensures settled { IfOk result (λ m. AreSettled m.deps.commits buffer.old.records) }
    ensures room { OnOk result (owed_by (λ t. tx_in t (map (λ d. d.0) in_doubt.now)) buffer.old.records ≤ buffer.new.room) }
    ensures records { buffer.new.records ≡ buffer.old.records }
    ensures fronts { (buffer.new.durable ≡ buffer.old.durable) × (buffer.new.taken ≡ buffer.old.taken) }
{
    let doubtful = doubtful_of(alloc, in_doubt)?;
    let Ok(()) = reserve_undo(buffer, &doubtful.txs) else {
        return Err(Memory);
    };
    let log = buffer.records(0, buffer.end());
    left_of(alloc, &doubtful.txs, &doubtful.set, pairs, log)
}

/// The transactions of a shard whose log, which ends with a restart's records, is the buffer's, as the restart leaves them: those in doubt have
/// their parts, closed, their locks, and their predecessors without a COMMIT. The log has room to undo them.
/// The store has the records after the restart; the lists are those that recovery tells.
pub fn restored<S: Store + Drop, L: Locks + Drop>(
    alloc: Global,
    shard: u32,
    epoch: u64,
    store: S,
    mut buffer: LogBuffer<LogRecord>,
    in_doubt: &[(TxId, u32)],
    pairs: &[(TxId, TxId)],
) -> Result<ShardTx<S, L>, Memory>
    requires records { S.records store ≡ (local_after shard epoch buffer.records).records }
    requires in_doubt { in_doubt.now ≡ homes_of buffer.records (in_doubt_in shard buffer.records) }
    requires pairs { pairs.now ≡ restored_pairs buffer.records (in_doubt_in shard buffer.records) }
    requires spelled { list_all has_spelling buffer.records ≡ true }
    ensures shard { IfOk result (λ t. t.shard ≡ shard) }
    ensures local { IfOk result (λ t. t.local ≡ local_after shard epoch buffer.records) }
    ensures fronts { IfOk result (λ t. (t.durable ≡ buffer.durable) × (t.taken ≡ buffer.taken)) }
{
    restarts_end_at_rest();
    let left = left_in(alloc, &mut buffer, in_doubt, pairs)?;
    Ok(ShardTx::new(
        shard, epoch, store, left.locks, left.parts, left.deps, buffer,
    ))
}
