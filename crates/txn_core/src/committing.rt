//! Records that decide.
ghost use Rattle.std.specs.Prelude.{◌≡◌, ◌≤◌, ◌<◌, ◌+◌, ◌++◌, [], ◌∷◌, length, cond};
ghost use Rattle.clv_base.specs.declared.names.TxId.{TxId as Tx};
ghost use Rattle.clv_base.specs.declared.logs.LogRecord.TheVariants.{Commit};
ghost use Rattle.clv_base.specs.Orders.{tx_same, tx_get};
ghost use Rattle.txn_core.specs.State.{AreSettled};
ghost use Rattle.txn_core.specs.Committed.{place_or};

use cascade_undo::Deps;
use clv_base::logs::LogRecord;
use clv_base::names::TxId;
use clv_base::parts::ShardList;
use log_buffer::LogBuffer;

/// The transaction is settled at this LSN, unless it was before. Takes no memory.
fn settle_first(deps: &mut Deps, tx: TxId, lsn: u64)
    requires { 0 < deps.old.room }
    ensures commits { (t : Tx) → tx_get t deps.new.commits ≡ cond (tx_same tx t) (place_or (tx_get t deps.old.commits) lsn) (tx_get t deps.old.commits) }
    ensures pairs { deps.new.pairs ≡ deps.old.pairs }
    ensures room { (deps.new.room ≤ deps.old.room) × (deps.old.room ≤ deps.new.room + 1) }
{
    if deps.settled_at(tx).is_none() {
        deps.settle(tx, lsn);
    }
}

/// A COMMIT with these parts goes to the log's end. Takes no memory.
pub(crate) fn write_commit(
    buffer: &mut LogBuffer<LogRecord>,
    deps: &mut Deps,
    tx: TxId,
    parts: ShardList,
) -> u64
    requires room { (0 < buffer.old.room) × (0 < deps.old.room) }
    requires settled { AreSettled deps.old.commits buffer.old.records }
    ensures lsn { result ≡ length buffer.old.records }
    ensures records { buffer.new.records ≡ buffer.old.records ++ Commit tx parts ∷ [] }
    ensures fronts { (buffer.new.durable ≡ buffer.old.durable) × (buffer.new.taken ≡ buffer.old.taken) }
    ensures room { (buffer.old.room ≡ buffer.new.room + 1) × (deps.old.room ≤ deps.new.room + 1) }
    ensures left { deps.new.room ≤ deps.old.room }
    ensures settled { AreSettled deps.new.commits buffer.new.records }
    ensures pairs { deps.new.pairs ≡ deps.old.pairs }
{
    let lsn = buffer.append_reserved(LogRecord::Commit { tx, parts });
    settle_first(deps, tx, lsn);
    lsn
}
