//! Marking a transaction and all that depend on it.
ghost use Rattle.std.specs.Prelude.{◌≡◌, ◌≤◌, ◌<◌, ◌+◌, ◌∷◌, [], ◌++◌, List, length, map, if◌then◌else◌, vec_len, vec_capacity};
ghost use Rattle.std.specs.List.{filter};
ghost use Rattle.std.specs.List.Sorted.{IsStrictlySortedBy};
ghost use Rattle.clv_base.specs.declared.names.TxId.{TxId as Tx};
ghost use Rattle.clv_base.specs.Orders.{tx_cmp, tx_same, tx_in, tx_insert};
ghost use Rattle.cascade_undo.specs.Dependencies.{doomed};
ghost use Rattle.cascade_undo.specs.Pairs.{AreTurned, pairs_in};
ghost use Rattle.cascade_undo.specs.Marking.{marks_with, new_marks, unmarked};

use clv_base::names::TxId;
use tx_table::TxLists;
use tx_table::sorted::insert;

/// Marks a transaction, and queues it where it is new.
fn mark(tx: TxId, marks: &mut Vec<TxId>, queue: &mut Vec<TxId>)
    requires rising { IsStrictlySortedBy tx_cmp marks.old.items }
    requires marks { vec_len marks.old < vec_capacity marks.old }
    requires queue { vec_len queue.old < vec_capacity queue.old }
    ensures rising { IsStrictlySortedBy tx_cmp marks.new.items }
    ensures marks { marks.new.items ≡ tx_insert tx marks.old.items }
    ensures queue { queue.new.items ≡ (if tx_in tx marks.old.items then queue.old.items else queue.old.items ++ tx ∷ []) }
    ensures room { (vec_capacity marks.new ≡ vec_capacity marks.old) × (vec_capacity queue.new ≡ vec_capacity queue.old) }
{
    if insert(marks, tx) {
        queue.push_reserved(tx);
    }
}

/// Marks the successors of a transaction, by lists of successors.
fn mark_successors(turned: &TxLists, tx: TxId, marks: &mut Vec<TxId>, queue: &mut Vec<TxId>)
    requires rising { IsStrictlySortedBy tx_cmp marks.old.items }
    requires marks { vec_len marks.old + unmarked (pairs_in turned.now.lists) marks.old.items < vec_capacity marks.old }
    requires queue { vec_len queue.old + unmarked (pairs_in turned.now.lists) marks.old.items < vec_capacity queue.old }
    ensures rising { IsStrictlySortedBy tx_cmp marks.new.items }
    ensures marks { marks.new.items ≡ marks_with (map (λ p. p.1) (filter (λ p. tx_same tx p.0) (pairs_in turned.now.lists))) marks.old.items }
    ensures queue { queue.new.items ≡ queue.old.items ++ new_marks (map (λ p. p.1) (filter (λ p. tx_same tx p.0) (pairs_in turned.now.lists))) marks.old.items }
    ensures room { (vec_capacity marks.new ≡ vec_capacity marks.old) × (vec_capacity queue.new ≡ vec_capacity queue.old) }
    ensures marks_room { vec_len marks.new + unmarked (pairs_in turned.now.lists) marks.new.items ≤ vec_len marks.old + unmarked (pairs_in turned.now.lists) marks.old.items }
    ensures queue_room { vec_len queue.new + unmarked (pairs_in turned.now.lists) marks.new.items ≤ vec_len queue.old + unmarked (pairs_in turned.now.lists) marks.old.items }
{
    for next in turned.get(tx) {
        mark(*next, marks, queue);
    }
}

/// Marks a transaction and all that are its successors through any number, by lists of successors.
pub(crate) fn mark_from(turned: &TxLists, tx: TxId, marks: &mut Vec<TxId>, queue: &mut Vec<TxId>)
    requires marks { length (pairs_in turned.now.lists) + 1 < vec_capacity marks.old }
    requires queue { length (pairs_in turned.now.lists) + 1 < vec_capacity queue.old }
    ensures rising { IsStrictlySortedBy tx_cmp marks.new.items }
    ensures marks { (pairs : List (Tx × Tx)) → AreTurned pairs (pairs_in turned.now.lists) → marks.new.items ≡ doomed pairs tx }
    ensures room { (vec_capacity marks.new ≡ vec_capacity marks.old) × (vec_capacity queue.new ≡ vec_capacity queue.old) }
{
    marks.clear();
    queue.clear();
    marks.push_reserved(tx);
    queue.push_reserved(tx);
    let mut next = 0;
    while next < queue.len() {
        let followed = queue[next];
        next += 1;
        mark_successors(turned, followed, marks, queue);
    }
}
