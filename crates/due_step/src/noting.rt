//! Before what was found is carried out.
ghost use Rattle.std.specs.Prelude.{◌≡◌, ◌||◌};
ghost use Rattle.clv_base.specs.declared.names.TxId.{TxId as Tx};
ghost use Rattle.clv_base.specs.Orders.{tx_in};
ghost use Rattle.clv_base.specs.Undo.{doomed_by};
ghost use Rattle.tx_table.specs.Held.{HasRoomBy};
ghost use Rattle.due_step.specs.Noting.{ruled_touches, touches};

use crate::Due;
use clv_base::names::TxId;
use clv_base::state::Ruling;
use lock_table::Locks;
use ordered_store::Store;
use tx_table::Candidates;
use txn_core::ShardTx;

/// Whom a ruling touches besides are candidates besides.
fn note_ruled<S: Store + Drop, L: Locks + Drop>(
    tx: TxId,
    ruling: &Ruling,
    transactions: &mut ShardTx<S, L>,
    candidates: &mut Candidates,
)
    requires { HasRoomBy (ruled_touches transactions.old.local tx ruling.now) candidates.old }
    ensures same { transactions.new ≡ transactions.old }
    ensures txs { (x : Tx) → tx_in x candidates.new.txs ≡ (ruled_touches transactions.old.local tx ruling.now x || tx_in x candidates.old.txs) }
    ensures limit { candidates.new.limit ≡ candidates.old.limit }
{
    match ruling {
        Ruling::Commit { .. } => transactions.note_successors(tx, candidates),
        Ruling::Abort { .. } => transactions.note_doomed(tx, candidates),
        _ => {}
    }
}

/// Whom what was found touches are candidates besides: call it before `carry`. Takes no memory.
pub fn note_touched<S: Store + Drop, L: Locks + Drop>(
    tx: TxId,
    due: &Due,
    transactions: &mut ShardTx<S, L>,
    candidates: &mut Candidates,
)
    requires { HasRoomBy (λ t. tx_in t (doomed_by transactions.old.local tx)) candidates.old }
    ensures same { transactions.new ≡ transactions.old }
    ensures txs { (x : Tx) → tx_in x candidates.new.txs ≡ (touches transactions.old.local tx due.now x || tx_in x candidates.old.txs) }
    ensures limit { candidates.new.limit ≡ candidates.old.limit }
{
    candidates.insert(tx);
    match due {
        Due::Commit => {}
        Due::Vote(_) => {}
        Due::Ruling(ruling) => note_ruled(tx, ruling, transactions, candidates),
    }
}
