//! The ABORTs of a set of transactions.
ghost use Rattle.std.specs.Prelude.{◌≡◌, ◌≤◌, ◌+◌, ◌++◌, [], ◌∷◌, length};
ghost use Rattle.clv_base.specs.Logs.{standing};
ghost use Rattle.clv_base.specs.Undo.{aborts_of};

use clv_base::logs::LogRecord;
use clv_base::names::TxId;
use log_buffer::LogBuffer;

/// An ABORT for the transaction, if a write of it stands here.
fn append_abort(buffer: &mut LogBuffer<LogRecord>, tx: TxId)
    requires { length (aborts_of buffer.old.records (tx ∷ [])) ≤ buffer.old.room }
    ensures log { buffer.new.records ≡ buffer.old.records ++ aborts_of buffer.old.records (tx ∷ []) }
    ensures standing { standing buffer.new.records ≡ standing buffer.old.records }
    ensures fronts { (buffer.new.durable ≡ buffer.old.durable) × (buffer.new.taken ≡ buffer.old.taken) }
    ensures room { buffer.old.room ≤ buffer.new.room + length (aborts_of buffer.old.records (tx ∷ [])) }
{
    if buffer.has_standing(tx) {
        buffer.append_reserved(LogRecord::Abort { tx });
    }
}

/// An ABORT for each of the transactions of which a write stands here, in their order.
pub(crate) fn append_aborts(buffer: &mut LogBuffer<LogRecord>, set: &[TxId])
    requires { length (aborts_of buffer.old.records set.now) ≤ buffer.old.room }
    ensures log { buffer.new.records ≡ buffer.old.records ++ aborts_of buffer.old.records set.now }
    ensures standing { standing buffer.new.records ≡ standing buffer.old.records }
    ensures fronts { (buffer.new.durable ≡ buffer.old.durable) × (buffer.new.taken ≡ buffer.old.taken) }
    ensures room { buffer.old.room ≤ buffer.new.room + length (aborts_of buffer.old.records set.now) }
{
    for tx in set {
        append_abort(buffer, *tx);
    }
}
