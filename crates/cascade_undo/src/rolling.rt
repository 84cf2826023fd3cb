//! Rolling the marked transactions back.
ghost use Rattle.std.specs.Prelude.{◌≡◌, ◌≤◌, ◌+◌, ◌++◌, length};
ghost use Rattle.clv_base.specs.Logs.{standing};
ghost use Rattle.clv_base.specs.Undo.{records_without, aborts_of, clrs_of, is_of};
ghost use Rattle.cascade_undo.specs.Writes.{writes_of, HaveRecords};

use crate::Deps;
use crate::aborts::append_aborts;
use crate::undoing::undo_writes;
use clv_base::logs::LogRecord;
use log_buffer::LogBuffer;
use ordered_store::Store;

/// Takes away the effects of the marked transactions, and gives how many of their writes it undid. The log gets an ABORT for each of which
/// a write stands, in rising order, and then a CLR for each of their UPDATEs and an UNADD for each of their ADDs that stand, from the greatest LSN
/// down. In the same order an UPDATE's key gets the value before it again, and a ghost where there was none, and an ADD's number is taken
/// away. Nobody is released or unmarked. The room for these records must have been reserved. Takes no memory. To find the next of these
/// writes takes a look at each record down to it or at each mark, whichever are fewer, and to find that none is left one at each mark, but
/// for a factor of two. A look takes time in the logarithm of the number of marks.
pub fn roll_back<S: Store>(store: &mut S, buffer: &mut LogBuffer<LogRecord>, deps: &Deps) -> usize
    requires there { HaveRecords deps.now.marked (standing buffer.old.records) (S.records store.old) }
    requires room { length (aborts_of buffer.old.records deps.now.marked) + length (writes_of deps.now.marked (standing buffer.old.records)) ≤ buffer.old.room }
    ensures records { S.records store.new ≡ records_without (is_of deps.now.marked) (standing buffer.old.records) (S.records store.old) }
    ensures log { buffer.new.records ≡ buffer.old.records ++ aborts_of buffer.old.records deps.now.marked ++ clrs_of deps.now.marked (standing buffer.old.records) }
    ensures fronts { (buffer.new.durable ≡ buffer.old.durable) × (buffer.new.taken ≡ buffer.old.taken) }
    ensures room { buffer.old.room ≤ buffer.new.room + (length (aborts_of buffer.old.records deps.now.marked) + length (writes_of deps.now.marked (standing buffer.old.records))) }
    ensures store_room { S.room store.old ≤ S.room store.new }
    ensures count { result ≡ length (writes_of deps.now.marked (standing buffer.old.records)) }
{
    let marks = deps.marks();
    append_aborts(buffer, marks);
    undo_writes(store, buffer, marks)
}
