//! What an operation writes.
ghost use Rattle.std.specs.Prelude.{◌≡◌, ◌≤◌, ◌+◌};
ghost use Rattle.clv_base.specs.Needs.{record_set};
ghost use Rattle.shard_ops.specs.Effects.{records_after, log_after, record_count, new_at, new_records, CanSet, CanWrite};

use crate::Write;
use clv_base::logs::LogRecord;
use clv_base::names::TxId;
use clv_base::values::{Value, copy_of};
use log_buffer::LogBuffer;
use ordered_store::Store;

/// Sets a value at a key, or makes its record a ghost.
fn set<S: Store>(store: &mut S, key: u64, after: Option<Value>)
    requires { CanSet key after (S.room store.old) (S.records store.old) }
    ensures records { S.records store.new ≡ record_set key after (S.records store.old) }
    ensures room { S.room store.old ≤ S.room store.new + new_at key (S.records store.old) }
{
    match after {
        Some(value) => {
            store.set(key, value);
        }
        None => store.hide(key),
    }
}

/// Writes what an operation writes into the store, and its UPDATE or ADD into the log, for which there is room. The store has room for one record
/// fewer where the key is a new one, and the log where there is a record. Takes no memory.
pub fn write_down<S: Store>(
    store: &mut S,
    buffer: &mut LogBuffer<LogRecord>,
    tx: TxId,
    write: &Option<Write>,
)
    requires log { record_count write.now ≤ buffer.old.room }
    requires store { CanWrite write.now (S.room store.old) (S.records store.old) }
    ensures records { S.records store.new ≡ records_after write.now (S.records store.old) }
    ensures log { buffer.new.records ≡ log_after tx write.now buffer.old.records }
    ensures fronts { (buffer.new.durable ≡ buffer.old.durable) × (buffer.new.taken ≡ buffer.old.taken) }
    ensures room { buffer.old.room ≡ buffer.new.room + record_count write.now }
    ensures store_room { S.room store.old ≤ S.room store.new + new_records write.now (S.records store.old) }
{
    if let Some(write) = write {
        set(store, write.key, copy_of(&write.after));
        buffer.append_reserved(write.change.copy().into_record(tx, write.key));
    }
}
