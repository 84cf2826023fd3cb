//! Room for what may become due, and parts that close.
ghost use Rattle.std.specs.Prelude.{◌≡◌, ◌≤◌, ◌<◌, ◌+◌, ◌||◌, Some, length, OnOk};
ghost use Rattle.std.specs.List.Sorted.{IsStrictlySortedBy};
ghost use Rattle.std.specs.Map.{keys_of};
ghost use Rattle.clv_base.specs.declared.names.TxId.{TxId as Tx};
ghost use Rattle.clv_base.specs.declared.state.Stage.TheVariants.{Active};
ghost use Rattle.clv_base.specs.Orders.{tx_cmp, tx_get, tx_in, tx_same};
ghost use Rattle.clv_base.specs.Logs.{has_standing};
ghost use Rattle.clv_base.specs.Undo.{stage_of as stage_in, doomed_by};
ghost use Rattle.clv_base.specs.Facts.{undecided_of};
ghost use Rattle.clv_base.specs.OneShard.{close_part as closed_by, closing as closed_with, purge};
ghost use Rattle.protocol_laws.specs.UndoLaws.{is_pair};
ghost use Rattle.tx_table.specs.Held.{HasRoomBy};
ghost use Rattle.due_step.specs.Steps.{ArePrepares};
ghost use Rattle.txn_core.specs.State.{IsSameBut};
ghost use Rattle.txn_core.specs.Sound.{IsSound, HasSpare, SpendsSpare};
ghost use Rattle.txn_core.specs.Closings.{planned};
ghost use Rattle.shard_core.specs.Requesting.{HasStayed, HasMade, place_after};

use clv_base::names::TxId;
use clv_base::parts::ShardList;
use clv_base::state::Ruling;
use due_step::{Due, Outbox, note_touched};
use lock_table::Locks;
use ordered_store::Store;
use tx_table::{Candidates, TxTable};
use txn_core::{Closing, ClosingPlan, Memory, ShardTx};

/// Makes room for so many things more that may become due, and for a record, so many messages and a transaction besides. Where there is no
/// memory all stays, but that there may be more room.
pub(crate) fn make_room<S: Store + Drop, L: Locks + Drop>(
    things: usize,
    messages: usize,
    transactions: &mut ShardTx<S, L>,
    prepares: &mut TxTable<u64>,
    outbox: &mut Outbox,
    candidates: &mut Candidates,
) -> Result<(), Memory>
    requires { things ≤ 3 }
    ensures stay { HasStayed transactions.old transactions.new prepares.old prepares.new outbox.old outbox.new candidates.old candidates.new }
    ensures made { OnOk result (HasMade things messages transactions.old transactions.new prepares.new outbox.old outbox.new candidates.old candidates.new) }
{
    match transactions.reserve(things + 1) {
        Ok(()) => {}
        Err(memory) => return Err(memory),
    }
    match prepares.reserve(1) {
        Ok(()) => {}
        Err(_) => return Err(Memory),
    }
    match outbox.reserve(15 * things) {
        Ok(()) => {}
        Err(_) => return Err(Memory),
    }
    match outbox.reserve(messages) {
        Ok(()) => {}
        Err(_) => return Err(Memory),
    }
    match candidates.reserve_more(1) {
        Ok(()) => Ok(()),
        Err(_) => Err(Memory),
    }
}

/// The place of the PREPARE that closed the transaction's part is kept, unless it has one before. Takes no memory.
fn keep_place(tx: TxId, closing: Closing, prepares: &mut TxTable<u64>)
    requires { 0 < prepares.old.room }
    ensures { (t : Tx) → tx_get t prepares.new.rows ≡ place_after (tx_same tx t) closing (tx_get t prepares.old.rows) }
{
    match closing {
        Closing::Prepare(lsn) => {
            if prepares.get(tx).is_none() {
                prepares.set(tx, lsn);
            }
        }
        Closing::Commit(_) | Closing::Silent => {}
    }
}

/// The transaction's active part is closed as planned, and it and its successors are candidates besides. Takes no memory.
pub(crate) fn close_noted<S: Store + Drop, L: Locks + Drop>(
    tx: TxId,
    home: u32,
    one_shard: bool,
    plan: ClosingPlan,
    transactions: &mut ShardTx<S, L>,
    prepares: &mut TxTable<u64>,
    candidates: &mut Candidates,
)
    requires active { stage_in transactions.old.local tx ≡ Some Active }
    requires home { home < 16 }
    requires spare { HasSpare 1 transactions.old × (0 < transactions.old.pairs_room) }
    requires plan { planned tx home plan ≡ closed_with (has_standing (transactions.old.local).log tx) one_shard tx home (undecided_of transactions.old.local tx) }
    requires place { 0 < prepares.old.room }
    requires places { ArePrepares prepares.old.rows (transactions.old.local).log }
    requires room { HasRoomBy (λ t. tx_in t (doomed_by transactions.old.local tx)) candidates.old }
    ensures closed { IsSameBut transactions.old (closed_by tx home one_shard transactions.old.local) transactions.new }
    ensures rising { IsStrictlySortedBy tx_cmp (keys_of (transactions.old.local).parts) }
    ensures room { SpendsSpare 1 transactions.old transactions.new }
    ensures pairs_room { transactions.old.pairs_room ≤ transactions.new.pairs_room + 1 }
    ensures places { ArePrepares prepares.new.rows (transactions.new.local).log }
    ensures sound { IsSound transactions.new.local transactions.new.room }
    ensures purged { purge transactions.new.local ≡ transactions.new.local }
    ensures txs { (x : Tx) → tx_in x candidates.new.txs ≡ ((is_pair (transactions.old.local).pairs x tx || tx_same tx x) || tx_in x candidates.old.txs) }
    ensures limit { candidates.new.limit ≡ candidates.old.limit }
    ensures rise { IsStrictlySortedBy tx_cmp candidates.new.txs }
    ensures few { length candidates.new.txs ≤ candidates.new.limit }
{
    let due = Due::Ruling(Ruling::Commit {
        parts: ShardList::new(),
    });
    note_touched(tx, &due, transactions, candidates);
    let closing = transactions.close_as(tx, home, one_shard, plan);
    keep_place(tx, closing, prepares);
    transactions.kept();
    let _least = candidates.first();
}
