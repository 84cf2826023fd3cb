//! The step.
ghost use Rattle.std.specs.Prelude.{◌≡◌, ◌≤◌, ◌<◌, ◌+◌, None};
ghost use Rattle.clv_base.specs.State.{Shard};
ghost use Rattle.txn_core.specs.Sound.{HasSpare, SpendsSpare};
ghost use Rattle.due_step.specs.Carried.{IsPurged};
ghost use Rattle.clv_base.specs.Orders.{tx_in};
ghost use Rattle.clv_base.specs.Undo.{doomed_by};
ghost use Rattle.tx_table.specs.Held.{HasRoomBy};
ghost use Rattle.due_step.specs.Steps.{IsSeen, ArePrepares, Steps, Notes};

use crate::seeking::seek_due;
use crate::{Due, Outbox, carry, note_touched, tell};
use clv_base::names::TxId;
use lock_table::Locks;
use ordered_store::Store;
use two_phase_commit::{Coordinator, Participant};
use tx_table::{Candidates, TxTable};
use txn_core::ShardTx;

/// Does what is due for the transaction, if anything is, and gives it. Takes no memory.
pub fn do_one<S: Store + Drop, L: Locks + Drop>(
    tx: TxId,
    shard: u32,
    transactions: &mut ShardTx<S, L>,
    participant: &mut Participant,
    coordinator: &mut Coordinator,
    prepares: &TxTable<u64>,
    outbox: &mut Outbox,
    candidates: &mut Candidates,
) -> Option<Due>
    requires room { HasSpare 1 transactions.old × (0 < transactions.old.pairs_room) × (15 ≤ outbox.old.room) }
    requires candidates { HasRoomBy (λ t. tx_in t (doomed_by transactions.old.local tx)) candidates.old }
    requires purged { IsPurged transactions.old.local }
    requires prepares { ArePrepares prepares.now.rows (transactions.old.local).log }
    requires shard { (shard ≡ transactions.old.shard) × (shard ≡ coordinator.old.shard) }
    ensures steps { (s : Shard) → IsSeen s transactions.old participant.old coordinator.old outbox.old → Steps s tx result transactions.new participant.new coordinator.new outbox.new }
    ensures idle { result ≡ None → (transactions.new ≡ transactions.old) × (outbox.new ≡ outbox.old) }
    ensures taken { transactions.new.taken ≡ transactions.old.taken }
    ensures shard { participant.new.shard ≡ participant.old.shard }
    ensures noted { Notes transactions.old.local tx result candidates.old candidates.new }
    ensures room { SpendsSpare 1 transactions.old transactions.new }
    ensures pairs_room { transactions.old.pairs_room ≤ transactions.new.pairs_room + 1 }
    ensures messages_room { outbox.old.room ≤ outbox.new.room + 15 }
{
    let due = match seek_due(tx, transactions, prepares, participant, coordinator) {
        Some(due) => due,
        None => return None,
    };
    note_touched(tx, &due, transactions, candidates);
    tell(outbox, tx, shard, &due, participant, coordinator);
    carry(transactions, tx, &due);
    Some(due)
}
