//! Pairs of transactions, in lists by the first and in lists by the second.
ghost use Rattle.std.specs.Prelude.{◌≡◌, ◌≤◌, [], ◌∷◌, length};
ghost use Rattle.std.specs.Option.{option_map_or};
ghost use Rattle.clv_base.specs.declared.names.TxId.{TxId as Tx};
ghost use Rattle.clv_base.specs.Undo.{pairs_without};
ghost use Rattle.tx_table.specs.Lists.{list_in};
ghost use Rattle.cascade_undo.specs.Pairs.{AreTurned, pairs_in, left_by};

use clv_base::names::TxId;
use tx_table::TxLists;

/// A transaction leaves the lists of these.
fn leave_each(turned: &mut TxLists, preds: &[TxId], tx: TxId)
    ensures { (p : Tx) → list_in p turned.new.lists ≡ left_by tx preds.now p (list_in p turned.old.lists) }
{
    for pred in preds {
        turned.leave(*pred, tx);
    }
}

/// A transaction leaves the lists of those in its own; gives how many these are.
fn leave_all(turned: &mut TxLists, own: Option<Vec<TxId>>, tx: TxId) -> usize
    ensures lists { (p : Tx) → list_in p turned.new.lists ≡ left_by tx (option_map_or (λ v. v.items) own []) p (list_in p turned.old.lists) }
    ensures count { result ≡ length (option_map_or (λ v. v.items) own []) }
{
    match own {
        Some(preds) => {
            leave_each(turned, &preds, tx);
            preds.len()
        }
        None => 0,
    }
}

/// Takes away the pairs of a transaction with its predecessors, in both lists of them, and from their count.
pub(crate) fn drop_own(pairs: &mut TxLists, turned: &mut TxLists, count: &mut usize, tx: TxId)
    requires turned { AreTurned (pairs_in pairs.old.lists) (pairs_in turned.old.lists) }
    requires few { length (pairs_in pairs.old.lists) ≤ count.old }
    ensures pairs { pairs_in pairs.new.lists ≡ pairs_without (tx ∷ []) (pairs_in pairs.old.lists) }
    ensures turned { AreTurned (pairs_in pairs.new.lists) (pairs_in turned.new.lists) }
    ensures few { length (pairs_in pairs.new.lists) ≤ count.new }
    ensures less { count.new ≤ count.old }
{
    let own = pairs.take(tx);
    let gone = leave_all(turned, own, tx);
    turned.drop_empty(tx);
    *count -= gone;
}

/// Takes away the pairs of these transactions with their predecessors, in both lists of them, and from their count.
pub(crate) fn drop_all(pairs: &mut TxLists, turned: &mut TxLists, count: &mut usize, set: &[TxId])
    requires turned { AreTurned (pairs_in pairs.old.lists) (pairs_in turned.old.lists) }
    requires few { length (pairs_in pairs.old.lists) ≤ count.old }
    ensures pairs { pairs_in pairs.new.lists ≡ pairs_without set.now (pairs_in pairs.old.lists) }
    ensures turned { AreTurned (pairs_in pairs.new.lists) (pairs_in turned.new.lists) }
    ensures few { length (pairs_in pairs.new.lists) ≤ count.new }
    ensures less { count.new ≤ count.old }
{
    for tx in set {
        drop_own(pairs, turned, count, *tx);
    }
}
