//! The core of a shard after a restart.
ghost use Rattle.std.specs.Prelude.{◌≡◌, ◌≤◌, ◌+◌, ◌*◌, ℕ, [], length, IfOk, IfSome, OnOk, OnErr};
ghost use Rattle.std.specs.List.Sorted.{IsStrictlySortedBy};
ghost use Rattle.std.specs.Map.{keys_of};
ghost use Rattle.clv_base.specs.Orders.{tx_cmp};
ghost use Rattle.clv_base.specs.Coordinator.{restored_requests};
ghost use Rattle.clv_base.specs.Participant.{restored_voters};
ghost use Rattle.clv_base.specs.Restarts.{local_after, state_after};
ghost use Rattle.clv_base.specs.Orders.{tx_get};
ghost use Rattle.clv_base.specs.Logs.{prepare_lsn};
ghost use Rattle.clv_base.specs.declared.names.TxId.{TxId as Tx};
ghost use Rattle.two_phase_commit.specs.Coordinated.{AreNamed};
ghost use Rattle.txn_core.specs.Sound.{HasSpare};
ghost use Rattle.machine_calls.specs.Restored.{IsRestored};
ghost use Rattle.shard_core.specs.Whole.{IsAtRest};

use crate::prepares_of;
use crate::shard::ShardCore;
use clv_base::logs::LogRecord;
use clv_base::names::TxId;
use clv_base::parts::ShardList;
use due_step::Outbox;
use lock_table::Locks;
use ordered_store::Store;
use protocol_laws::depending::restarts_have_parts;
use protocol_laws::events::restarts_end_at_rest;
use shard_recovery::Recovered;
use shard_restoring::restored;
use std::alloc::Global;
use std::mem;
use two_phase_commit::coordinator_laws::unended_rise;
use two_phase_commit::doubts::doubtful_rise;
use two_phase_commit::{Coordinator, Participant};
use tx_table::{Candidates, TxTable};
use txn_core::{Memory, ShardTx};

/// How much may be left to do where so many are in doubt and so many commits without an END, and one thing more.
fn room_for(in_doubt: usize, unended: usize) -> Option<usize>
    ensures { IfSome result (λ count. count ≡ in_doubt + unended + 1) }
{
    match in_doubt.checked_add(unended) {
        Some(count) => count.checked_add(1),
        None => None,
    }
}

/// A home with the commits that have no END.
fn home_of(alloc: Global, shard: u32, unended: &[(TxId, ShardList)]) -> Result<Coordinator, Memory>
    requires rising { IsStrictlySortedBy tx_cmp (keys_of unended.now) }
    requires named { AreNamed unended.now }
    ensures shard { IfOk result (λ c. c.shard ≡ shard) }
    ensures requests { IfOk result (λ c. c.requests ≡ restored_requests unended.now) }
{
    let mut coordinator = Coordinator::new(alloc, shard);
    match coordinator.restored(alloc, unended) {
        Ok(()) => Ok(coordinator),
        Err(_) => Err(Memory),
    }
}

/// No message, and room for 15 for each of so many things that may be done.
fn outbox_for(alloc: Global, count: usize) -> Result<Outbox, Memory>
    ensures messages { IfOk result (λ o. o.messages ≡ []) }
    ensures room { IfOk result (λ o. 15 * count ≤ o.room) }
{
    let Some(messages) = count.checked_mul(15) else {
        return Err(Memory);
    };
    let mut outbox = Outbox::new(alloc);
    match outbox.reserve(messages) {
        Ok(()) => Ok(outbox),
        Err(_) => Err(Memory),
    }
}

/// No candidate, and room for twice so many.
fn candidates_for(alloc: Global, count: usize) -> Result<Candidates, Memory>
    ensures none { IfOk result (λ c. c.txs ≡ []) }
    ensures places { IfOk result (λ c. 2 * count ≤ c.limit) }
{
    let Some(places) = count.checked_mul(2) else {
        return Err(Memory);
    };
    let mut candidates = Candidates::new(alloc);
    match candidates.reserve(places) {
        Ok(()) => Ok(candidates),
        Err(_) => Err(Memory),
    }
}

/// Where each PREPARE stands, who votes and who rules, as a restart found them.
#[derive(Drop)]
struct Tables {
    prepares: TxTable<u64>,
    participant: Participant,
    coordinator: Coordinator,
}

fn tables_of(
    alloc: Global,
    shard: u32,
    log: &[LogRecord],
    in_doubt: &[(TxId, u32)],
    unended: &[(TxId, ShardList)],
) -> Result<Tables, Memory>
    requires doubtful { IsStrictlySortedBy tx_cmp (keys_of in_doubt.now) }
    requires rising { IsStrictlySortedBy tx_cmp (keys_of unended.now) }
    requires named { AreNamed unended.now }
    ensures prepares { IfOk result (λ m. (t : Tx) → tx_get t m.prepares.rows ≡ prepare_lsn log.now t) }
    ensures participant { IfOk result (λ m. m.participant.shard ≡ shard) }
    ensures voters { IfOk result (λ m. m.participant.voters ≡ restored_voters in_doubt.now) }
    ensures coordinator { IfOk result (λ m. m.coordinator.shard ≡ shard) }
    ensures requests { IfOk result (λ m. m.coordinator.requests ≡ restored_requests unended.now) }
{
    let Ok(prepares) = prepares_of(alloc, log) else {
        return Err(Memory);
    };
    let Ok(participant) = Participant::new(alloc, shard, in_doubt) else {
        return Err(Memory);
    };
    let Ok(coordinator) = home_of(alloc, shard, unended) else {
        return Err(Memory);
    };
    Ok(Tables {
        prepares,
        participant,
        coordinator,
    })
}

/// Room for what so many things may leave to do.
#[derive(Drop)]
struct Rooms {
    outbox: Outbox,
    candidates: Candidates,
}

fn rooms_for(alloc: Global, count: usize) -> Result<Rooms, Memory>
    ensures messages { IfOk result (λ m. m.outbox.messages ≡ []) }
    ensures room { IfOk result (λ m. 15 * count ≤ m.outbox.room) }
    ensures none { IfOk result (λ m. m.candidates.txs ≡ []) }
    ensures places { IfOk result (λ m. 2 * count ≤ m.candidates.limit) }
{
    let Ok(outbox) = outbox_for(alloc, count) else {
        return Err(Memory);
    };
    let Ok(candidates) = candidates_for(alloc, count) else {
        return Err(Memory);
    };
    Ok(Rooms { outbox, candidates })
}

/// All of a core but its transactions, as a restart found it, with room for so many things as there may be to do.
#[derive(Drop)]
struct Beside {
    tables: Tables,
    rooms: Rooms,
    count: usize,
}

fn beside_of(alloc: Global, shard: u32, recovered: &Recovered) -> Result<Beside, Memory>
    requires doubtful { IsStrictlySortedBy tx_cmp (keys_of recovered.now.in_doubt.items) }
    requires rising { IsStrictlySortedBy tx_cmp (keys_of recovered.now.unended.items) }
    requires named { AreNamed recovered.now.unended.items }
    ensures count { IfOk result (λ m. m.count ≡ length recovered.now.in_doubt.items + length recovered.now.unended.items + 1) }
    ensures prepares { IfOk result (λ m. (t : Tx) → tx_get t m.tables.prepares.rows ≡ prepare_lsn recovered.now.buffer.records t) }
    ensures participant { IfOk result (λ m. m.tables.participant.shard ≡ shard) }
    ensures voters { IfOk result (λ m. m.tables.participant.voters ≡ restored_voters recovered.now.in_doubt.items) }
    ensures coordinator { IfOk result (λ m. m.tables.coordinator.shard ≡ shard) }
    ensures requests { IfOk result (λ m. m.tables.coordinator.requests ≡ restored_requests recovered.now.unended.items) }
    ensures messages { IfOk result (λ m. m.rooms.outbox.messages ≡ []) }
    ensures room { IfOk result (λ m. 15 * m.count ≤ m.rooms.outbox.room) }
    ensures none { IfOk result (λ m. m.rooms.candidates.txs ≡ []) }
    ensures places { IfOk result (λ m. 2 * m.count ≤ m.rooms.candidates.limit) }
{
    let Some(count) = room_for(recovered.in_doubt.len(), recovered.unended.len()) else {
        return Err(Memory);
    };
    let log = recovered.buffer.records(0, recovered.buffer.end());
    let Ok(tables) = tables_of(alloc, shard, log, &recovered.in_doubt, &recovered.unended) else {
        return Err(Memory);
    };
    let Ok(rooms) = rooms_for(alloc, count) else {
        return Err(Memory);
    };
    Ok(Beside {
        tables,
        rooms,
        count,
    })
}

/// The transactions, with room for so many things to do.
fn with_room<S: Store + Drop, L: Locks + Drop>(
    mut transactions: ShardTx<S, L>,
    count: usize,
) -> Result<ShardTx<S, L>, Memory>
    ensures shard { IfOk result (λ t. t.shard ≡ transactions.shard) }
    ensures local { IfOk result (λ t. t.local ≡ transactions.local) }
    ensures durable { IfOk result (λ t. t.durable ≡ transactions.durable) }
    ensures taken { IfOk result (λ t. t.taken ≡ transactions.taken) }
    ensures spare { IfOk result (λ t. HasSpare count t) }
    ensures pairs { IfOk result (λ t. count ≤ t.pairs_room) }
{
    match transactions.reserve(count) {
        Ok(()) => Ok(transactions),
        Err(memory) => Err(memory),
    }
}

/// The transactions that recovery found, with room for so many things to do.
fn transactions_of<S: Store + Drop, L: Locks + Drop>(
    alloc: Global,
    shard: u32,
    epoch: u64,
    store: S,
    recovered: Recovered,
    count: usize,
) -> Result<ShardTx<S, L>, Memory>
    requires { (run : ℕ) × IsRestored shard run epoch (S.records store) recovered }
    ensures shard { IfOk result (λ t. t.shard ≡ shard) }
    ensures local { IfOk result (λ t. t.local ≡ local_after shard epoch recovered.buffer.records) }
    ensures durable { IfOk result (λ t. t.durable ≡ length recovered.buffer.records) }
    ensures taken { IfOk result (λ t. t.taken ≡ length recovered.buffer.records) }
    ensures spare { IfOk result (λ t. HasSpare count t) }
    ensures pairs { IfOk result (λ t. count ≤ t.pairs_room) }
{
    let Ok(transactions) = restored(
        alloc,
        shard,
        epoch,
        store,
        recovered.buffer,
        &recovered.in_doubt,
        &recovered.pairs,
    ) else {
        return Err(Memory);
    };
    with_room(transactions, count)
}

impl<S: Store + Drop, L: Locks + Drop> ShardCore<S, L> {
    /// The core of a shard that was restarted, from what recovery found: exactly the protocol's state after the restart, with nothing due. Where
    /// there is no memory nothing is made.
    pub fn restored(
        alloc: Global,
        store: S,
        recovered: Recovered,
        shard: u32,
        run: u32,
        epoch: u64,
    ) -> Result<Self, Memory>
        requires { IsRestored shard run epoch (S.records store) recovered }
        ensures shard { IfOk result (λ c. c.shard ≡ state_after shard run epoch recovered.buffer.records 0 []) }
        ensures rest { IfOk result (λ c. IsAtRest c) }
    {
        doubtful_rise();
        unended_rise();
        restarts_have_parts();
        restarts_end_at_rest();
        let Ok(beside) = beside_of(alloc, shard, &recovered) else {
            return Err(Memory);
        };
        let Ok(transactions) = transactions_of(alloc, shard, epoch, store, recovered, beside.count)
        else {
            return Err(Memory);
        };
        Ok(ShardCore {
            shard,
            run,
            transactions,
            participant: beside.tables.participant,
            coordinator: beside.tables.coordinator,
            prepares: beside.tables.prepares,
            outbox: beside.rooms.outbox,
            candidates: beside.rooms.candidates,
            needed: 0,
        })
    }

    /// The same shard once more, in place, from what recovery found. Where there is no memory all stays.
    pub fn restart(
        &mut self,
        alloc: Global,
        store: S,
        recovered: Recovered,
        epoch: u64,
    ) -> Result<(), Memory>
        requires { IsRestored (self.old.shard).shard (self.old.shard).run epoch (S.records store) recovered }
        ensures shard { OnOk result (self.new.shard ≡ state_after (self.old.shard).shard (self.old.shard).run epoch recovered.buffer.records 0 []) }
        ensures rest { OnOk result (IsAtRest self.new) }
        ensures err { OnErr result (self.new ≡ self.old) }
    {
        let shard = self.number();
        let run = self.run();
        match Self::restored(alloc, store, recovered, shard, run, epoch) {
            Ok(core) => {
                let _records_before = mem::replace(self, core).into_store();
                Ok(())
            }
            Err(memory) => Err(memory),
        }
    }
}
