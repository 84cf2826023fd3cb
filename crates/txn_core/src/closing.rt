//! Closing a part.
ghost use Rattle.std.specs.Prelude.{◌≡◌, ◌≤◌, ◌<◌, ◌+◌, ℕ, length, Some, IfOk, OnOk, OnErr};
ghost use Rattle.std.specs.List.Sorted.{IsStrictlySortedBy};
ghost use Rattle.std.specs.Map.{keys_of};
ghost use Rattle.clv_base.specs.declared.state.Stage.TheVariants.{Active};
ghost use Rattle.clv_base.specs.Orders.{tx_cmp};
ghost use Rattle.clv_base.specs.Logs.{has_standing};
ghost use Rattle.clv_base.specs.Undo.{stage_of as stage_in};
ghost use Rattle.clv_base.specs.Facts.{undecided_of};
ghost use Rattle.clv_base.specs.OneShard.{close_part as closed_by, closing};
ghost use Rattle.txn_core.specs.State.{IsSameBut};
ghost use Rattle.txn_core.specs.Sound.{HasSpare, KeepsSpare, SpendsSpare, UsesSpare};
ghost use Rattle.txn_core.specs.Closings.{IsClosing, planned};

use crate::ending::close_in;
use crate::performing::{reserve_pairs, reserve_records};
use crate::plans::{Closing, ClosingPlan, closing_plan, write_closing};
use crate::shard::ShardTx;
use clv_base::names::TxId;
use lock_table::{Locks, Memory};
use ordered_store::Store;
use std::alloc::Global;

impl<S: Store + Drop, L: Locks + Drop> ShardTx<S, L> {
    /// Makes room for so many records more, and for as many COMMITs that are to be settled, on top of what was reserved. An `Err` changes
    /// nothing.
    pub fn reserve(&mut self, count: usize) -> Result<(), Memory>
        ensures ok { OnOk result ((self.old.room + count ≤ self.new.room) × (self.old.pairs_room + count ≤ self.new.pairs_room)) }
        ensures spare { OnOk result (HasSpare count self.new) }
        ensures same { IsSameBut self.old self.old.local self.new }
        ensures room { (self.old.room ≤ self.new.room) × (self.old.pairs_room ≤ self.new.pairs_room) }
        ensures made { OnOk result ((self.new.room ≡ self.old.room + count) × (self.new.pairs_room ≡ self.old.pairs_room + count)) }
        ensures refused { OnErr result ((self.new.room ≡ self.old.room) × (self.new.pairs_room ≡ self.old.pairs_room)) }
    {
        let pairs = self.deps.room();
        match reserve_pairs(&mut self.deps, count) {
            Ok(()) => {}
            Err(memory) => return Err(memory),
        }
        match reserve_records(&mut self.buffer, count) {
            Ok(()) => Ok(()),
            Err(memory) => {
                self.deps.trim(pairs);
                Err(memory)
            }
        }
    }

    /// The active part of a transaction is closed: its locks may be violated from now on. Where a write of it stands, the log gets a COMMIT, if this
    /// shard is the only one and no predecessor is undecided, else a PREPARE for the home, which lists the undecided ones. Where there is no memory
    /// all is as before. There is no more room afterwards than before, also where nothing was written.
    pub fn close_part(
        &mut self,
        alloc: Global,
        tx: TxId,
        home: u32,
        one_shard: bool,
    ) -> Result<Closing, Memory>
        requires active { stage_in self.old.local tx ≡ Some Active }
        requires home { home < 16 }
        ensures ok { OnOk result (IsSameBut self.old (closed_by tx home one_shard self.old.local) self.new) }
        ensures written { IfOk result (IsClosing (self.old.local).log tx home (closing (has_standing (self.old.local).log tx) one_shard tx home (undecided_of self.old.local tx))) }
        ensures err { OnErr result (IsSameBut self.old self.old.local self.new) }
        ensures room { KeepsSpare self.old self.new }
        ensures given_back { KeepsSpare self.new self.old }
        ensures pairs_room { self.old.pairs_room ≤ self.new.pairs_room }
        ensures pairs_given_back { self.new.pairs_room ≤ self.old.pairs_room }
    {
        let room = self.buffer.room();
        let pairs = self.deps.room();
        let plan = match self.plan_closing(alloc, tx, one_shard) {
            Ok(plan) => plan,
            Err(memory) => return Err(memory),
        };
        match self.reserve(1) {
            Ok(()) => {}
            Err(memory) => return Err(memory),
        }
        let closing = self.close_as(tx, home, one_shard, plan);
        self.trim_to(room, pairs);
        Ok(closing)
    }

    /// The record that is to close the transaction's part.
    pub fn plan_closing(
        &self,
        alloc: Global,
        tx: TxId,
        one_shard: bool,
    ) -> Result<ClosingPlan, Memory>
        ensures { IfOk result (λ plan. (home : ℕ) → planned tx home plan ≡ closing (has_standing (self.now.local).log tx) one_shard tx home (undecided_of self.now.local tx)) }
    {
        closing_plan(alloc, &self.buffer, &self.deps, tx, one_shard)
    }

    /// The transaction's part, which is active, is closed by this record, for which there is room. Takes no memory.
    pub fn close_as(&mut self, tx: TxId, home: u32, one_shard: bool, plan: ClosingPlan) -> Closing
        requires active { stage_in self.old.local tx ≡ Some Active }
        requires home { home < 16 }
        requires room { HasSpare 1 self.old × (0 < self.old.pairs_room) }
        requires plan { planned tx home plan ≡ closing (has_standing (self.old.local).log tx) one_shard tx home (undecided_of self.old.local tx) }
        ensures closed { IsSameBut self.old (closed_by tx home one_shard self.old.local) self.new }
        ensures written { IsClosing (self.old.local).log tx home (closing (has_standing (self.old.local).log tx) one_shard tx home (undecided_of self.old.local tx)) result }
        ensures room { SpendsSpare 1 self.old self.new }
        ensures spent { UsesSpare (length (closing (has_standing (self.old.local).log tx) one_shard tx home (undecided_of self.old.local tx))) self.old self.new }
        ensures pairs_room { self.old.pairs_room ≤ self.new.pairs_room + 1 }
        ensures pairs_given_back { self.new.pairs_room ≤ self.old.pairs_room }
        ensures rising { IsStrictlySortedBy tx_cmp (keys_of (self.old.local).parts) }
    {
        self.parts.rising();
        self.locks.close_part(tx);
        close_in(&mut self.parts, tx);
        write_closing(&mut self.buffer, &mut self.deps, tx, home, plan)
    }
}
