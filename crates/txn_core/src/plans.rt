//! Which record closes a part.
ghost use Rattle.std.specs.Prelude.{◌≡◌, ◌≤◌, ◌<◌, ◌+◌, ◌++◌, ℕ, true, length, is_none, IfOk};
ghost use Rattle.clv_base.specs.declared.names.TxId.{TxId as Tx};
ghost use Rattle.std.specs.List.{filter};
ghost use Rattle.clv_base.specs.Orders.{tx_get};
ghost use Rattle.clv_base.specs.Logs.{has_standing};
ghost use Rattle.clv_base.specs.OneShard.{closing};
ghost use Rattle.cascade_undo.specs.Dependencies.{undecided_by};
ghost use Rattle.txn_core.specs.Closings.{planned, IsClosing};
ghost use Rattle.txn_core.specs.State.{AreSettled};

use crate::committing::write_commit;
use cascade_undo::Deps;
use clv_base::lists::TxList;
use clv_base::logs::LogRecord;
use clv_base::names::TxId;
use clv_base::parts::ShardList;
use lock_table::Memory;
use log_buffer::LogBuffer;
use std::alloc::{AllocError, Global};

/// The record that closed a part.
#[derive(Clone, Copy, PartialEq, Eq)]
pub enum Closing {
    /// A COMMIT, at this LSN.
    Commit(u64),
    /// A PREPARE, at this LSN.
    Prepare(u64),
    /// None, as no write of the part stands.
    Silent,
}

/// The record that is to close a part.
#[derive(Drop)]
pub enum ClosingPlan {
    /// A COMMIT.
    Commit,
    /// A PREPARE, with the predecessors without a COMMIT.
    Prepare { predecessors: TxList },
    /// None, as no write of the part stands.
    Silent,
}

/// Whether the transaction isn't settled.
fn is_open(deps: &Deps, pred: TxId) -> bool
    ensures { result ≡ is_none (tx_get pred deps.now.commits) }
{
    deps.settled_at(pred).is_none()
}

/// Those of the transactions that aren't settled.
fn open_among(alloc: Global, deps: &Deps, txs: &[TxId]) -> Result<Vec<TxId>, AllocError>
    ensures { IfOk result (λ list. list.items ≡ filter (λ p. is_none (tx_get p deps.now.commits)) txs.now) }
{
    txs.iter()
        .copied()
        .filter(|pred| is_open(deps, *pred))
        .collect(alloc)
}

/// The transaction's predecessors without a COMMIT, rising.
fn open_predecessors(alloc: Global, deps: &Deps, tx: TxId) -> Result<TxList, Memory>
    ensures { IfOk result (λ list. list ≡ undecided_by deps.now tx) }
{
    match open_among(alloc, deps, deps.predecessors(tx)) {
        Ok(list) => Ok(TxList::new(list)),
        Err(_) => Err(Memory),
    }
}

/// The record for a part of which a write stands.
fn plan_by(one_shard: bool, predecessors: TxList) -> ClosingPlan
    ensures { (tx : Tx) (home : ℕ) → planned tx home result ≡ closing true one_shard tx home predecessors }
{
    if one_shard && predecessors.as_slice().is_empty() {
        ClosingPlan::Commit
    } else {
        ClosingPlan::Prepare { predecessors }
    }
}

/// Which record is to close the transaction's part: none where no write of it stands; a COMMIT where this shard is the only one and no predecessor is
/// undecided; else a PREPARE.
pub(crate) fn closing_plan(
    alloc: Global,
    buffer: &LogBuffer<LogRecord>,
    deps: &Deps,
    tx: TxId,
    one_shard: bool,
) -> Result<ClosingPlan, Memory>
    ensures { IfOk result (λ plan. (home : ℕ) → planned tx home plan ≡ closing (has_standing buffer.now.records tx) one_shard tx home (undecided_by deps.now tx)) }
{
    if !buffer.has_standing(tx) {
        return Ok(ClosingPlan::Silent);
    }
    match open_predecessors(alloc, deps, tx) {
        Ok(predecessors) => Ok(plan_by(one_shard, predecessors)),
        Err(memory) => Err(memory),
    }
}

/// The planned record goes to the log's end. Takes no memory.
pub(crate) fn write_closing(
    buffer: &mut LogBuffer<LogRecord>,
    deps: &mut Deps,
    tx: TxId,
    home: u32,
    plan: ClosingPlan,
) -> Closing
    requires room { (0 < buffer.old.room) × (0 < deps.old.room) }
    requires settled { AreSettled deps.old.commits buffer.old.records }
    ensures written { IsClosing buffer.old.records tx home (planned tx home plan) result }
    ensures records { buffer.new.records ≡ buffer.old.records ++ planned tx home plan }
    ensures fronts { (buffer.new.durable ≡ buffer.old.durable) × (buffer.new.taken ≡ buffer.old.taken) }
    ensures room { (buffer.old.room ≤ buffer.new.room + 1) × (deps.old.room ≤ deps.new.room + 1) }
    ensures spent { (buffer.old.room ≡ buffer.new.room + length (planned tx home plan)) × (deps.new.room ≤ deps.old.room) }
    ensures settled { AreSettled deps.new.commits buffer.new.records }
    ensures pairs { deps.new.pairs ≡ deps.old.pairs }
{
    match plan {
        ClosingPlan::Commit => { Closing::Commit(write_commit(buffer, deps, tx, ShardList::new())) }
        ClosingPlan::Prepare { predecessors } => {
            Closing::Prepare(buffer.append_reserved(LogRecord::Prepare {
                tx,
                home,
                predecessors,
            }))
        }
        ClosingPlan::Silent => Closing::Silent,
    }
}
