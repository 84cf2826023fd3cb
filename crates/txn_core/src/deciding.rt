//! What an operation needs and meets.
ghost use Rattle.std.specs.Prelude.{◌≡◌, IfOk};
ghost use Rattle.txn_core.specs.Judged.{IsDecided, decided_by};

use cascade_undo::Deps;
use clv_base::logs::LogRecord;
use clv_base::names::{Birth, TxId};
use clv_base::ops::Op;
use lock_table::{Locks, Memory};
use log_buffer::LogBuffer;
use ordered_store::Store;
use shard_ops::{Meeting, Plan, meet, plan_of};
use std::alloc::Global;

/// What is decided on an operation.
#[derive(Drop)]
pub(crate) enum Decided {
    /// It is granted: it may be done so, and violates the writes of these.
    Grant { plan: Plan, violated: Vec<TxId> },
    /// It has to wait.
    Wait { younger: TxId },
    /// Its transaction has to die.
    Die { older: TxId },
    /// A grant would make so many undecided predecessors, which are too many.
    Crowded { count: usize },
}

/// What was met, with the plan.
fn with_plan(plan: Plan, meeting: Meeting) -> Decided
    ensures { result ≡ decided_by plan meeting }
{
    match meeting {
        Meeting::Grant { violated } => Decided::Grant { plan, violated },
        Meeting::Wait { younger } => Decided::Wait { younger },
        Meeting::Die { older } => Decided::Die { older },
        Meeting::Crowded { count } => Decided::Crowded { count },
    }
}

/// What is decided on an operation, and its plan where it is granted. Nothing is changed.
pub(crate) fn decide<S: Store, L: Locks>(
    alloc: Global,
    store: &S,
    locks: &L,
    deps: &Deps,
    buffer: &LogBuffer<LogRecord>,
    tx: TxId,
    birth: Birth,
    op: &Op,
) -> Result<Decided, Memory>
    ensures { IfOk result (IsDecided (S.records store.now) (L.rows locks.now) buffer.now.records deps.now tx birth op.now) }
{
    let plan = match plan_of(alloc, store, op) {
        Ok(plan) => plan,
        Err(memory) => return Err(memory),
    };
    match meet(alloc, locks, deps, buffer, tx, birth, plan.needs.as_slice()) {
        Ok(meeting) => Ok(with_plan(plan, meeting)),
        Err(memory) => Err(memory),
    }
}
