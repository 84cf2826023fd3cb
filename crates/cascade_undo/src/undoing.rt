//! Undoing the writes of a set of transactions, or a transaction's newest ones, from the newest one down.
ghost use Rattle.std.specs.Prelude.{◌≡◌, ◌≤◌, ◌<◌, ◌+◌, ◌++◌, [], ◌∷◌, length, IsTrue};
ghost use Rattle.std.specs.List.Sorted.{IsStrictlySortedBy};
ghost use Rattle.clv_base.specs.Orders.{tx_cmp};
ghost use Rattle.clv_base.specs.Logs.{standing, unchanged, without_newest};
ghost use Rattle.clv_base.specs.Maps.{minus as with_taken};
ghost use Rattle.clv_base.specs.Undo.{records_without, clrs_of, clrs_by, compensation, is_at, is_of, newest_lsn, newest_lsns};
ghost use Rattle.clv_base.specs.Needs.{found_at, is_there, live_of, record_set, value_at};
ghost use Rattle.cascade_undo.specs.Writes.{writes_of, HaveRecords};

use crate::compensating::append_clr;
use crate::write::{Write, newest_back, newest_write};
use clv_base::changes::{Change, minus};
use clv_base::logs::LogRecord;
use clv_base::modes::Found;
use clv_base::names::TxId;
use clv_base::values::{Value, copy_of};
use log_buffer::LogBuffer;
use ordered_store::Store;

/// Sets the record at a key back to a value, or to a ghost.
fn restore<S: Store>(store: &mut S, key: u64, before: Option<Value>)
    requires { IsTrue (is_there (found_at key (S.records store.old))) }
    ensures records { S.records store.new ≡ record_set key before (S.records store.old) }
    ensures room { S.room store.old ≤ S.room store.new }
{
    match before {
        Some(value) => {
            store.set(key, value);
        }
        None => store.hide(key),
    }
}

/// What stands there, where it is live.
fn live(found: Found) -> Option<Value>
    ensures { result ≡ live_of found }
{
    match found {
        Found::Live(value) => Some(value),
        Found::Ghost | Found::Absent => None,
    }
}

/// Takes away what was added to the record at a key.
fn take_from<S: Store>(store: &mut S, key: u64, by: u64)
    requires { IsTrue (is_there (found_at key (S.records store.old))) }
    ensures records { S.records store.new ≡ record_set key (with_taken by (value_at key (S.records store.old))) (S.records store.old) }
    ensures room { S.room store.old ≤ S.room store.new }
{
    let value = live(store.get(key));
    restore(store, key, minus(&value, by));
}

/// Takes back what was done to the record at a key.
fn take_back<S: Store>(store: &mut S, key: u64, change: &Change)
    requires { IsTrue (is_there (found_at key (S.records store.old))) }
    ensures records { S.records store.new ≡ record_set key (unchanged change.now (value_at key (S.records store.old))) (S.records store.old) }
    ensures room { S.room store.old ≤ S.room store.new }
{
    match change {
        Change::Sets(before, _) => restore(store, key, copy_of(before)),
        Change::Adds(by) => take_from(store, key, *by),
    }
}

/// Takes back a transaction's newest write that stands.
fn undo_write<S: Store>(store: &mut S, buffer: &mut LogBuffer<LogRecord>, write: Write)
    requires there { IsTrue (is_there (found_at write.key (S.records store.old))) }
    requires room { 0 < buffer.old.room }
    ensures records { S.records store.new ≡ record_set write.key (unchanged write.change (value_at write.key (S.records store.old))) (S.records store.old) }
    ensures log { buffer.new.records ≡ buffer.old.records ++ compensation write.tx (newest_lsn write.tx (without_newest write.tx (standing buffer.old.records))) write.key write.change ∷ [] }
    ensures fronts { (buffer.new.durable ≡ buffer.old.durable) × (buffer.new.taken ≡ buffer.old.taken) }
    ensures room { buffer.old.room ≡ buffer.new.room + 1 }
    ensures store_room { S.room store.old ≤ S.room store.new }
{
    take_back(store, write.key, &write.change);
    append_clr(buffer, write);
}

/// Takes back all writes of the transactions, which rise, that stand in the log: a CLR or UNADD for each, from the greatest LSN down, which
/// names its transaction's write before it. In the same order an UPDATE's key gets the value before it again, and a ghost where there was
/// none, and an ADD's number is taken away. Gives how many these are. Takes no memory. The next of these writes is found by a look at each
/// record down to it or at each of the transactions, whichever are fewer, but for a factor of two: so the undo of one transaction takes time
/// in its own writes, however many others wrote between.
pub fn undo_writes<S: Store>(
    store: &mut S,
    buffer: &mut LogBuffer<LogRecord>,
    set: &[TxId],
) -> usize
    requires rising { IsStrictlySortedBy tx_cmp set.now }
    requires there { HaveRecords set.now (standing buffer.old.records) (S.records store.old) }
    requires room { length (writes_of set.now (standing buffer.old.records)) ≤ buffer.old.room }
    ensures records { S.records store.new ≡ records_without (is_of set.now) (standing buffer.old.records) (S.records store.old) }
    ensures log { buffer.new.records ≡ buffer.old.records ++ clrs_of set.now (standing buffer.old.records) }
    ensures fronts { (buffer.new.durable ≡ buffer.old.durable) × (buffer.new.taken ≡ buffer.old.taken) }
    ensures room { buffer.old.room ≡ buffer.new.room + length (writes_of set.now (standing buffer.old.records)) }
    ensures store_room { S.room store.old ≤ S.room store.new }
    ensures count { result ≡ length (writes_of set.now (standing buffer.old.records)) }
{
    let end = buffer.end();
    let mut below = end;
    while let Some(write) = newest_write(buffer, set, below) {
        below = write.lsn;
        undo_write(store, buffer, write);
    }
    (buffer.end() - end) as usize
}

/// Takes back the newest writes of a transaction that stand, so many of them, or all where these are fewer: a CLR or UNADD for each, from the
/// newest one down, which names the transaction's write before it. In the same order an UPDATE's key gets the value before it again, and a ghost
/// where there was none, and an ADD's number is taken away. Nothing else is changed. Takes no memory, and time in these writes alone.
pub fn roll_to<S: Store>(store: &mut S, buffer: &mut LogBuffer<LogRecord>, tx: TxId, count: usize)
    requires there { HaveRecords (tx ∷ []) (standing buffer.old.records) (S.records store.old) }
    requires room { length (newest_lsns count tx (standing buffer.old.records)) ≤ buffer.old.room }
    ensures records { S.records store.new ≡ records_without (is_at (newest_lsns count tx (standing buffer.old.records))) (standing buffer.old.records) (S.records store.old) }
    ensures log { buffer.new.records ≡ buffer.old.records ++ clrs_by (is_at (newest_lsns count tx (standing buffer.old.records))) (standing buffer.old.records) }
    ensures fronts { (buffer.new.durable ≡ buffer.old.durable) × (buffer.new.taken ≡ buffer.old.taken) }
    ensures room { buffer.old.room ≡ buffer.new.room + length (newest_lsns count tx (standing buffer.old.records)) }
    ensures store_room { S.room store.old ≤ S.room store.new }
{
    let mut left = count;
    while let Some(write) = newest_back(buffer, tx, left) {
        left -= 1;
        undo_write(store, buffer, write);
    }
}
