//! Doing what is granted.
ghost use Rattle.std.specs.Prelude.{◌≡◌, true, ◌≤◌, ◌+◌, ◌&&◌, length, None, is_none, IsOk, OnOk, OnErr};
ghost use Rattle.clv_base.specs.declared.names.TxId.{TxId as Tx};
ghost use Rattle.clv_base.specs.Orders.{tx_get};
ghost use Rattle.shard_ops.specs.Planned.{needed};
ghost use Rattle.shard_ops.specs.Effects.{record_count, CanWrite, performed_by};
ghost use Rattle.txn_core.specs.State.{IsSameBut};
ghost use Rattle.clv_base.specs.Logs.{has_standing};
ghost use Rattle.clv_base.specs.Undo.{stage_of as stage_in};
ghost use Rattle.clv_base.specs.OneShard.{undecided_with};
ghost use Rattle.cascade_undo.specs.Dependencies.{MayFollow};
ghost use Rattle.protocol_laws.specs.Spelled.{IsSpelled};
ghost use Rattle.txn_core.specs.Sound.{may_work, owed_more, IsCovered, KeepsSpare};

use crate::shard::ShardTx;
use cascade_undo::Deps;
use clv_base::logs::LogRecord;
use clv_base::names::{Birth, TxId};
use clv_base::state::Stage;
use lock_table::{Locks, Memory};
use log_buffer::LogBuffer;
use ordered_store::Store;
use shard_ops::{Plan, Write, enter_part, reserve_locks, take_locks, write_down};
use std::alloc::Global;

/// Whether a transaction has no part here, and yet a write that stands in the log, from before a restart. Its session is told of the restart before
/// it may come again, so what is made of it doesn't matter.
fn was_before(stage: Option<Stage>, buffer: &LogBuffer<LogRecord>, tx: TxId) -> bool
    ensures { result ≡ (is_none stage && has_standing buffer.now.records tx) }
{
    stage.is_none() && buffer.has_standing(tx)
}

/// Makes room for so many records beside what was reserved before. An `Err` changes nothing.
pub(crate) fn reserve_records(buffer: &mut LogBuffer<LogRecord>, count: usize) -> Result<(), Memory>
    ensures ok { OnOk result (buffer.new.room ≡ buffer.old.room + count) }
    ensures refused { OnErr result (buffer.new ≡ buffer.old) }
    ensures same { buffer.new ≡ record buffer.old { room = buffer.new.room } }
{
    let Some(all) = buffer.room().checked_add(count) else {
        return Err(Memory);
    };
    match buffer.reserve(all) {
        Ok(()) => Ok(()),
        Err(_) => Err(Memory),
    }
}

/// Makes room for the record of a write and for the one that may undo it, and for an ABORT where no other of the transaction stands. An `Err`
/// changes nothing.
fn reserve_log(
    buffer: &mut LogBuffer<LogRecord>,
    tx: TxId,
    write: &Option<Write>,
) -> Result<(), Memory>
    ensures ok { OnOk result (buffer.new.room ≡ buffer.old.room + record_count write.now + owed_more (has_standing buffer.old.records tx) write.now) }
    ensures refused { OnErr result (buffer.new ≡ buffer.old) }
    ensures same { buffer.new ≡ record buffer.old { room = buffer.new.room } }
{
    if write.is_none() {
        return Ok(());
    }
    let places = if buffer.has_standing(tx) { 2 } else { 3 };
    reserve_records(buffer, places)
}

/// Makes room for so many settled transactions beside what was reserved before. An `Err` changes nothing.
pub(crate) fn reserve_pairs(deps: &mut Deps, count: usize) -> Result<(), Memory>
    ensures ok { OnOk result (deps.new.room ≡ deps.old.room + count) }
    ensures refused { OnErr result (deps.new.room ≡ deps.old.room) }
    ensures pairs { deps.new.pairs ≡ deps.old.pairs }
    ensures commits { (t : Tx) → tx_get t deps.new.commits ≡ tx_get t deps.old.commits }
{
    let Some(all) = deps.room().checked_add(count) else {
        return Err(Memory);
    };
    match deps.reserve(all) {
        Ok(()) => Ok(()),
        Err(_) => Err(Memory),
    }
}

/// Makes room for a record where one is written, as it is for each insert. What only reads leaves the store alone, and wants no memory for it.
fn reserve_record<S: Store>(store: &mut S, write: &Option<Write>) -> Result<(), Memory>
    ensures ok { OnOk result (record_count write.now ≤ S.room store.new) }
    ensures read { write.now ≡ None → IsOk result × (store.new ≡ store.old) }
    ensures records { S.records store.new ≡ S.records store.old }
{
    if write.is_none() {
        return Ok(());
    }
    match store.reserve(1) {
        Ok(()) => Ok(()),
        Err(_) => Err(Memory),
    }
}

/// Makes room for a record where one is written, and for the transaction to become a successor of these. Dependencies and records stay.
fn reserve_rest<S: Store>(
    store: &mut S,
    deps: &mut Deps,
    write: &Option<Write>,
    tx: TxId,
    preds: &[TxId],
) -> Result<(), Memory>
    ensures store { OnOk result (record_count write.now ≤ S.room store.new) }
    ensures read { write.now ≡ None → store.new ≡ store.old }
    ensures deps { OnOk result (MayFollow tx preds.now deps.new) }
    ensures room { deps.new.room ≡ deps.old.room }
    ensures records { S.records store.new ≡ S.records store.old }
    ensures pairs { deps.new.pairs ≡ deps.old.pairs }
    ensures commits { (t : Tx) → tx_get t deps.new.commits ≡ tx_get t deps.old.commits }
{
    match reserve_record(store, write) {
        Ok(()) => {}
        Err(memory) => return Err(memory),
    }
    match deps.reserve_pairs(tx, preds) {
        Ok(()) => Ok(()),
        Err(_) => Err(Memory),
    }
}

impl<S: Store + Drop, L: Locks + Drop> ShardTx<S, L> {
    /// Does what was planned and granted, which violates the writes of these; `stage` is how far the part here is. An `Err` changes nothing but
    /// that there may be more room. What was reserved before stays reserved, and after `Ok` there is no more than that beyond the undo.
    pub(crate) fn perform(
        &mut self,
        alloc: Global,
        stage: Option<Stage>,
        tx: TxId,
        birth: Birth,
        plan: &Plan,
        violated: &[TxId],
    ) -> Result<(), Memory>
        requires stage { stage ≡ stage_in self.old.local tx }
        requires write { CanWrite plan.now.write 1 (self.old.local).records }
        requires covered { IsCovered (needed plan.now.needs) plan.now.insert plan.now.write }
        requires work { may_work (stage_in self.old.local tx) ≡ true }
        requires few { length (undecided_with self.old.local tx violated.now) ≤ 1024 }
        requires spelled { IsSpelled (performed_by tx birth (needed plan.now.needs) plan.now.insert plan.now.write violated.now self.old.local) }
        ensures ok { OnOk result (IsSameBut self.old (performed_by tx birth (needed plan.now.needs) plan.now.insert plan.now.write violated.now self.old.local) self.new) }
        ensures err { OnErr result (IsSameBut self.old self.old.local self.new) }
        ensures room { KeepsSpare self.old self.new }
        ensures given_back { OnOk result (KeepsSpare self.new self.old) }
        ensures pairs_room { self.old.pairs_room ≤ self.new.pairs_room }
        ensures pairs_given_back { OnOk result (self.new.pairs_room ≤ self.old.pairs_room) }
    {
        if was_before(stage, &self.buffer, tx) {
            return Err(Memory);
        }
        match reserve_locks(
            alloc,
            &mut self.locks,
            tx,
            plan.needs.as_slice(),
            plan.insert,
        ) {
            Ok(()) => {}
            Err(memory) => return Err(memory),
        }
        match reserve_rest(&mut self.store, &mut self.deps, &plan.write, tx, violated) {
            Ok(()) => {}
            Err(memory) => return Err(memory),
        }
        match reserve_log(&mut self.buffer, tx, &plan.write) {
            Ok(()) => {}
            Err(memory) => return Err(memory),
        }
        match enter_part(&mut self.parts, tx, birth, stage.is_some()) {
            Ok(()) => {}
            Err(memory) => return Err(memory),
        }
        take_locks(
            &mut self.locks,
            tx,
            birth,
            plan.needs.as_slice(),
            plan.insert,
        );
        self.deps.follow(tx, violated);
        write_down(&mut self.store, &mut self.buffer, tx, &plan.write);
        Ok(())
    }
}
