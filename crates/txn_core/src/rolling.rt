//! Taking away a transaction's part with all that depend on it, or its newest writes.
ghost use Rattle.std.specs.Prelude.{◌≡◌, ◌≤◌, true, false, is_some, Some, IsTrue};
ghost use Rattle.clv_base.specs.declared.state.Stage.TheVariants.{Active};
ghost use Rattle.clv_base.specs.Undo.{stage_of as stage_in, roll_back as without, roll_to as without_newest};
ghost use Rattle.clv_base.specs.OneShard.{drop_part as dropped_from, purge};
ghost use Rattle.txn_core.specs.State.{IsSameBut};
ghost use Rattle.txn_core.specs.Sound.{is_here, KeepsSpare};

use crate::ending::{end_parts, mark_dropped};
use crate::shard::ShardTx;
use crate::trimming::{owed_to, room_beyond};
use cascade_undo::{roll_back, roll_to};
use clv_base::names::TxId;
use clv_base::state::Stage;
use lock_table::Locks;
use ordered_store::Store;
use shard_ops::release_all;

impl<S: Store + Drop, L: Locks + Drop> ShardTx<S, L> {
    /// The transaction and all that depend on it are rolled back: the log gets their ABORTs, CLRs and UNADDs, what they wrote is taken back,
    /// their locks are given up, with the ghosts that bear no lock then, and their parts are gone. The room for their undo is given back, as far
    /// as it wasn't used. Takes no memory.
    pub(crate) fn roll_back_part(&mut self, tx: TxId)
        requires { is_here self.old.local tx ≡ true }
        ensures without { IsSameBut self.old (purge (without tx self.old.local)) self.new }
        ensures room { KeepsSpare self.old self.new }
        ensures given_back { KeepsSpare self.new self.old }
        ensures pairs_room { self.old.pairs_room ≤ self.new.pairs_room }
        ensures pairs_given_back { self.new.pairs_room ≤ self.old.pairs_room }
    {
        let _end = self.buffer.end();
        self.deps.mark_dependents(tx);
        let kept = room_beyond(&self.buffer, self.deps.marks());
        roll_back(&mut self.store, &mut self.buffer, &self.deps);
        release_all(&mut self.store, &mut self.locks, self.deps.marks());
        end_parts(&mut self.parts, self.deps.marks(), tx);
        self.deps.forget_marked();
        self.buffer.trim(kept);
    }

    /// The transaction's part is rolled back with all that depend on it, where it is there, and marked as dropped; ghosts that bear no lock then
    /// go. The room for their undo is given back, as far as it wasn't used. It is false exactly where no part of it is known, and then all is as
    /// before. Takes no memory.
    pub fn drop_part(&mut self, tx: TxId) -> bool
        ensures known { result ≡ is_some (stage_in self.old.local tx) }
        ensures dropped { IsTrue result → IsSameBut self.old (purge (dropped_from tx self.old.local)) self.new }
        ensures absent { result ≡ false → self.new ≡ self.old }
        ensures room { KeepsSpare self.old self.new }
        ensures given_back { KeepsSpare self.new self.old }
        ensures pairs_room { self.old.pairs_room ≤ self.new.pairs_room }
        ensures pairs_given_back { self.new.pairs_room ≤ self.old.pairs_room }
    {
        match self.stage_of(tx) {
            None => return false,
            Some(Stage::Active | Stage::Closed) => self.roll_back_part(tx),
            Some(Stage::Gone { .. }) => {}
        }
        mark_dropped(&mut self.parts, tx);
        true
    }

    /// The active transaction goes back: its newest writes here that stand, so many of them, are taken back, and the log gets a CLR or UNADD for
    /// each; its locks and its part stay, and nobody else is concerned. The room for their undo is used by these records, and what isn't wanted any
    /// more is given back. Takes no memory, and time in these writes alone.
    pub fn roll_to(&mut self, tx: TxId, count: usize)
        requires { stage_in self.old.local tx ≡ Some Active }
        ensures rolled { IsSameBut self.old (without_newest tx count self.old.local) self.new }
        ensures room { KeepsSpare self.old self.new }
        ensures given_back { KeepsSpare self.new self.old }
        ensures pairs_room { self.new.pairs_room ≡ self.old.pairs_room }
    {
        let _end = self.buffer.end();
        let _room = self.buffer.room();
        let others = room_beyond(&self.buffer, &[tx]);
        roll_to(&mut self.store, &mut self.buffer, tx, count);
        let own = owed_to(&self.buffer, &[tx]);
        self.buffer.trim(others + own);
    }
}
