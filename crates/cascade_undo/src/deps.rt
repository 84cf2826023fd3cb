//! The dependencies.

ghost use Rattle.std.specs.Prelude.{◌≡◌, ◌≤◌, ◌<◌, ◌+◌, false, [], ◌∷◌, None, Some, length, max, min, not, vec_capacity, IsOk, IfOk, OnOk, OnErr, if◌then◌else◌};
ghost use Rattle.std.specs.List.{filter};
ghost use Rattle.std.specs.List.Sorted.{IsStrictlySortedBy};
ghost use Rattle.clv_base.specs.declared.names.TxId.{TxId as Tx};
ghost use Rattle.clv_base.specs.OneShard.{add_pairs};
ghost use Rattle.clv_base.specs.Orders.{tx_cmp, tx_same, tx_in, tx_get, pair_cmp, pair_insert};
ghost use Rattle.clv_base.specs.Facts.{predecessors_of};
ghost use Rattle.protocol_laws.specs.UndoLaws.{is_pair};
ghost use Rattle.clv_base.specs.Undo.{pairs_without};
ghost use Rattle.tx_table.specs.Lists.{room_in};
ghost use Rattle.cascade_undo.specs.Dependencies.{MayFollow, doomed, undecided_by, due_of};

use crate::marking::mark_from;
use crate::pairs::{drop_all, drop_own};
use crate::reserving::{reserve_lists, reserve_rows};
use crate::room::with_places;
use crate::waiting::{Waiting, count_one, drop_rows, row_of, settle_rows};
use clv_base::names::TxId;
use std::alloc::{AllocError, Global};
use std::marker::Model;
use tx_table::sorted::contains;
use tx_table::{TxLists, TxTable};

/// Who depends on whom on a shard. A transaction is a successor of those that it violated. Each transaction has a list of its predecessors and one
/// of its successors, which one look into a hash map finds, so a new pair, and one that goes, moves others of these two transactions alone. How many
/// of a successor's predecessors aren't settled, and when the last of the others was, stands in a row of its own: to ask for it takes one look, and
/// to settle a transaction a look for each of its successors.
#[derive(Drop)]
pub struct Deps {
    preds: TxLists,
    succs: TxLists,
    // No fewer than there are pairs.
    count: usize,
    commits: TxTable<u64>,
    waits: TxTable<Waiting>,
    marks: Vec<TxId>,
    // Where marking gathers whom it still has to follow.
    queue: Vec<TxId>,
    // For how many pairs more there are rows, and places to mark their successors.
    places: usize,
    // For how many settled transactions room was reserved that isn't used. What is free beyond that was promised to nobody, so a call that asks for
    // room on top of what is reserved doesn't ask for it again.
    reserved: usize,
    // For how many settled transactions more, beside those, the table alone has places.
    reserved_settled: usize,
}

impl Model for Deps {
    ghost use Rattle.std.specs.Prelude.{length, vec_capacity};
    ghost use Rattle.cascade_undo.specs.Dependencies.{Dependencies};
    ghost use Rattle.cascade_undo.specs.Pairs.{pairs_in};
    ghost use Rattle.cascade_undo.specs.Kept.{AreKept, HavePlaces};

    ghost Value = { Dependencies };

    ghost view = { λ s. record {
      pairs = pairs_in s.preds.lists;
      commits = s.commits.rows;
      marked = s.marks.items;
      room = s.reserved;
      settled_room = s.reserved_settled;
      ahead = s.preds.rooms;
      behind = s.succs.rooms;
      places = s.places;
    } };

    ghost invariant = { λ s. AreKept (pairs_in s.preds.lists) (pairs_in s.succs.lists) s.marks.items (vec_capacity s.marks) (vec_capacity s.queue) s.commits.rows s.waits.rows
        × HavePlaces (length (pairs_in s.preds.lists)) s.count s.places (vec_capacity s.marks) (vec_capacity s.queue) s.waits.room s.reserved s.reserved_settled s.commits.room };
}

impl Deps {
    /// No dependencies, and the room to mark one transaction.
    pub fn new(alloc: Global) -> Result<Deps, AllocError>
        ensures pairs { IfOk result (λ d. d.pairs ≡ []) }
        ensures commits { IfOk result (λ d. (t : Tx) → tx_get t d.commits ≡ None) }
        ensures marked { IfOk result (λ d. d.marked ≡ []) }
        ensures room { IfOk result (λ d. d.room ≡ 0) }
        ensures settled_room { IfOk result (λ d. d.settled_room ≡ 0) }
    {
        let marks = with_places(alloc, 2)?;
        let queue = with_places(alloc, 2)?;
        Ok(Deps {
            preds: TxLists::new(alloc),
            succs: TxLists::new(alloc),
            count: 0,
            commits: TxTable::new(alloc),
            waits: TxTable::new(alloc),
            marks,
            queue,
            places: 0,
            reserved: 0,
            reserved_settled: 0,
        })
    }

    /// For how many settled transactions more room is reserved. Takes no memory.
    pub fn room(&self) -> usize
        ensures { result ≡ self.now.room }
    {
        self.reserved
    }

    /// Makes room for so many settled transactions more: afterwards there is the greater of this and of what was reserved before. Room alone
    /// changes, and never shrinks; an `Err` changes nothing.
    #[tactic(auto, using(crate::proofs::Counting::counted_alike))]
    pub fn reserve(&mut self, count: usize) -> Result<(), AllocError>
        ensures ok { OnOk result (count ≤ self.new.room) }
        ensures room { self.old.room ≤ self.new.room }
        ensures pairs { self.new.pairs ≡ self.old.pairs }
        ensures commits { (t : Tx) → tx_get t self.new.commits ≡ tx_get t self.old.commits }
        ensures marked { self.new.marked ≡ self.old.marked }
        ensures reserved { OnOk result (self.new.room ≡ max self.old.room count) }
        ensures refused { OnErr result (self.new.room ≡ self.old.room) }
        ensures settled_room { self.new.settled_room ≡ self.old.settled_room }
    {
        let Some(rows) = count.checked_add(self.reserved_settled) else {
            return Err(AllocError);
        };
        self.commits.reserve(rows)?;
        self.reserved = self.reserved.max(count);
        Ok(())
    }

    /// Makes places for the transaction to become a successor of each of these; of nobody it takes no memory. Nothing else changes, whatever the
    /// result.
    pub fn reserve_pairs(&mut self, tx: TxId, preds: &[TxId]) -> Result<(), AllocError>
        ensures ok { OnOk result (MayFollow tx preds.now self.new) }
        ensures nobody { length preds.now ≡ 0 → IsOk result × (self.new ≡ self.old) }
        ensures pairs { self.new.pairs ≡ self.old.pairs }
        ensures commits { self.new.commits ≡ self.old.commits }
        ensures marked { self.new.marked ≡ self.old.marked }
        ensures room { self.new.room ≡ self.old.room }
        ensures settled_room { self.new.settled_room ≡ self.old.settled_room }
    {
        if preds.is_empty() {
            return Ok(());
        }
        reserve_lists(&mut self.preds, &mut self.succs, tx, preds)?;
        reserve_rows(
            &mut self.waits,
            &mut self.marks,
            &mut self.queue,
            self.count,
            preds.len(),
        )?;
        self.places = self.places.max(preds.len());
        Ok(())
    }

    /// Makes room for so many settled transactions more, beside what `reserve` made: afterwards there is the greater of this and of what was reserved
    /// so before. That room alone changes; an `Err` changes nothing.
    #[tactic(auto, using(crate::proofs::Counting::counted_alike))]
    pub fn reserve_settled(&mut self, count: usize) -> Result<(), AllocError>
        ensures ok { OnOk result (self.new.settled_room ≡ max self.old.settled_room count) }
        ensures refused { OnErr result (self.new.settled_room ≡ self.old.settled_room) }
        ensures pairs { self.new.pairs ≡ self.old.pairs }
        ensures commits { (t : Tx) → tx_get t self.new.commits ≡ tx_get t self.old.commits }
        ensures marked { self.new.marked ≡ self.old.marked }
        ensures room { self.new.room ≡ self.old.room }
    {
        let Some(rows) = self.reserved.checked_add(count) else {
            return Err(AllocError);
        };
        self.commits.reserve(rows)?;
        self.reserved_settled = self.reserved_settled.max(count);
        Ok(())
    }

    /// Gives back the room that is beyond so many settled transactions. Takes no memory; what was given back is there for whoever reserves next.
    pub fn trim(&mut self, keep: usize)
        ensures { self.new ≡ record self.old { room = min self.old.room keep } }
    {
        self.reserved = self.reserved.min(keep);
    }

    /// The transaction is a successor of the other one, which it wasn't before. Takes no memory.
    fn add_new(&mut self, tx: TxId, pred: TxId)
        requires new { tx_in pred (predecessors_of self.old.pairs tx) ≡ false }
        requires ahead { 1 ≤ room_in tx self.old.ahead }
        requires behind { 1 ≤ room_in pred self.old.behind }
        requires places { 1 ≤ self.old.places }
        ensures pairs { self.new.pairs ≡ pair_insert (tx, pred) self.old.pairs }
        ensures commits { self.new.commits ≡ self.old.commits }
        ensures marked { self.new.marked ≡ self.old.marked }
        ensures room { (self.new.room ≡ self.old.room) × (self.new.settled_room ≡ self.old.settled_room) }
        ensures ahead { room_in tx self.old.ahead ≤ room_in tx self.new.ahead + 1 }
        ensures behind { (p : Tx) → tx_same pred p ≡ false → room_in p self.old.behind ≤ room_in p self.new.behind }
        ensures places { self.old.places ≡ self.new.places + 1 }
    {
        let commit = self.commits.get(pred);
        count_one(&mut self.waits, self.preds.get(tx), tx, commit);
        self.preds.insert(tx, pred);
        self.succs.insert(pred, tx);
        self.count += 1;
        self.places -= 1;
    }

    /// The transaction is a successor of the other one. Takes no memory.
    fn add(&mut self, tx: TxId, pred: TxId)
        requires ahead { 1 ≤ room_in tx self.old.ahead }
        requires behind { tx_in pred (predecessors_of self.old.pairs tx) ≡ false → 1 ≤ room_in pred self.old.behind }
        requires places { 1 ≤ self.old.places }
        ensures pairs { self.new.pairs ≡ pair_insert (tx, pred) self.old.pairs }
        ensures commits { self.new.commits ≡ self.old.commits }
        ensures marked { self.new.marked ≡ self.old.marked }
        ensures room { (self.new.room ≡ self.old.room) × (self.new.settled_room ≡ self.old.settled_room) }
        ensures ahead { room_in tx self.old.ahead ≤ room_in tx self.new.ahead + 1 }
        ensures behind { (p : Tx) → tx_same pred p ≡ false → room_in p self.old.behind ≤ room_in p self.new.behind }
        ensures places { self.old.places ≤ self.new.places + 1 }
    {
        if !self.is_predecessor(tx, pred) {
            self.add_new(tx, pred);
        }
    }

    /// The transaction is a successor of each of these, for which `reserve_pairs` made places. Takes no memory.
    pub fn follow(&mut self, tx: TxId, preds: &[TxId])
        requires { MayFollow tx preds.now self.old }
        ensures pairs { self.new.pairs ≡ add_pairs tx preds.now self.old.pairs }
        ensures commits { self.new.commits ≡ self.old.commits }
        ensures marked { self.new.marked ≡ self.old.marked }
        ensures room { self.new.room ≡ self.old.room }
        ensures settled_room { self.new.settled_room ≡ self.old.settled_room }
    {
        for pred in preds {
            self.add(tx, *pred);
        }
    }

    /// The transaction's COMMIT, which it hadn't before, is in the log, at this LSN. Takes no memory; each of its successors is told.
    pub fn settle(&mut self, pred: TxId, lsn: u64)
        requires room { 0 < self.old.room }
        requires fresh { tx_get pred self.old.commits ≡ None }
        ensures commits { (t : Tx) → tx_get t self.new.commits ≡ (if tx_same pred t then Some lsn else tx_get t self.old.commits) }
        ensures pairs { self.new.pairs ≡ self.old.pairs }
        ensures marked { self.new.marked ≡ self.old.marked }
        ensures room { self.old.room ≡ self.new.room + 1 }
        ensures settled_room { self.new.settled_room ≡ self.old.settled_room }
    {
        self.commits.set(pred, lsn);
        settle_rows(&mut self.waits, self.succs.get(pred), lsn);
        self.reserved -= 1;
    }

    /// The transaction's COMMIT, which it hadn't before, is found in a log that is there already, at this LSN: what was reserved for settled
    /// transactions alone is used. Takes no memory; each of its successors is told.
    pub fn settle_found(&mut self, pred: TxId, lsn: u64)
        requires room { 0 < self.old.settled_room }
        requires fresh { tx_get pred self.old.commits ≡ None }
        ensures commits { (t : Tx) → tx_get t self.new.commits ≡ (if tx_same pred t then Some lsn else tx_get t self.old.commits) }
        ensures pairs { self.new.pairs ≡ self.old.pairs }
        ensures marked { self.new.marked ≡ self.old.marked }
        ensures room { self.new.room ≡ self.old.room }
        ensures settled_room { self.old.settled_room ≡ self.new.settled_room + 1 }
    {
        self.commits.set(pred, lsn);
        settle_rows(&mut self.waits, self.succs.get(pred), lsn);
        self.reserved_settled -= 1;
    }

    /// The LSN at which the transaction was settled.
    pub fn settled_at(&self, pred: TxId) -> Option<u64>
        ensures { result ≡ tx_get pred self.now.commits }
    {
        self.commits.get(pred)
    }

    /// The transaction's predecessors, rising.
    pub fn predecessors(&self, tx: TxId) -> &[TxId]
        ensures { result.now ≡ predecessors_of self.now.pairs tx }
    {
        self.preds.get(tx)
    }

    /// The transaction's successors, rising.
    pub fn successors(&self, pred: TxId) -> &[TxId]
        ensures { (t : Tx) → tx_in t result.now ≡ is_pair self.now.pairs t pred }
    {
        self.succs.get(pred)
    }

    /// Whether the second transaction is a predecessor of the first.
    pub fn is_predecessor(&self, tx: TxId, pred: TxId) -> bool
        ensures is { result ≡ tx_in pred (predecessors_of self.now.pairs tx) }
        ensures rising { IsStrictlySortedBy pair_cmp self.now.pairs }
    {
        contains(self.preds.get(tx), &pred)
    }

    /// How many of its predecessors aren't settled, by one look.
    pub fn undecided(&self, tx: TxId) -> usize
        ensures { result ≡ length (undecided_by self.now tx) }
    {
        row_of(&self.waits, tx).undecided
    }

    /// The greatest LSN of its predecessors' COMMITs, by one look: none while one isn't settled, or where it has none.
    pub fn due_lsn(&self, tx: TxId) -> Option<u64>
        ensures { result ≡ due_of self.now tx }
    {
        let row = row_of(&self.waits, tx);
        if row.undecided > 0 {
            return None;
        }
        row.due
    }

    /// Marks the transaction and all that are its successors through any number, and no other; gives how many these are. Takes no memory.
    pub fn mark_dependents(&mut self, tx: TxId) -> usize
        ensures marked { self.new.marked ≡ doomed self.old.pairs tx }
        ensures count { result ≡ length (doomed self.old.pairs tx) }
        ensures pairs { self.new.pairs ≡ self.old.pairs }
        ensures commits { self.new.commits ≡ self.old.commits }
        ensures room { self.new.room ≡ self.old.room }
        ensures settled_room { self.new.settled_room ≡ self.old.settled_room }
    {
        mark_from(&self.succs, tx, &mut self.marks, &mut self.queue);
        self.marks.len()
    }

    /// Takes the mark off a transaction. Takes no memory.
    pub fn unmark(&mut self, tx: TxId)
        ensures marked { self.new.marked ≡ filter (λ t. not (tx_same tx t)) self.old.marked }
        ensures pairs { self.new.pairs ≡ self.old.pairs }
        ensures commits { self.new.commits ≡ self.old.commits }
        ensures room { self.new.room ≡ self.old.room }
        ensures settled_room { self.new.settled_room ≡ self.old.settled_room }
    {
        drop_one(&mut self.marks, tx);
    }

    /// Whether the transaction is marked.
    pub fn marked(&self, tx: TxId) -> bool
        ensures { result ≡ tx_in tx self.now.marked }
    {
        contains(&self.marks, &tx)
    }

    /// The marked transactions, rising.
    pub fn marks(&self) -> &[TxId]
        ensures marked { result.now ≡ self.now.marked }
        ensures rising { IsStrictlySortedBy tx_cmp self.now.marked }
    {
        &self.marks
    }

    /// The transaction's pairs with its predecessors go, and its lists where nobody is in them. Marks stay. In the list of each predecessor what
    /// lies above the transaction moves. Takes no memory.
    pub fn forget(&mut self, tx: TxId)
        ensures pairs { self.new.pairs ≡ pairs_without (tx ∷ []) self.old.pairs }
        ensures commits { self.new.commits ≡ self.old.commits }
        ensures marked { self.new.marked ≡ self.old.marked }
        ensures room { self.new.room ≡ self.old.room }
        ensures settled_room { self.new.settled_room ≡ self.old.settled_room }
    {
        drop_own(&mut self.preds, &mut self.succs, &mut self.count, tx);
        self.waits.remove(tx);
    }

    /// The pairs of all marked transactions with their predecessors go, one transaction after another, and then the marks. Takes no memory.
    pub fn forget_marked(&mut self)
        ensures pairs { self.new.pairs ≡ pairs_without self.old.marked self.old.pairs }
        ensures commits { self.new.commits ≡ self.old.commits }
        ensures marked { self.new.marked ≡ [] }
        ensures room { self.new.room ≡ self.old.room }
        ensures settled_room { self.new.settled_room ≡ self.old.settled_room }
    {
        drop_all(
            &mut self.preds,
            &mut self.succs,
            &mut self.count,
            &self.marks,
        );
        drop_rows(&mut self.waits, &self.marks);
        self.marks.clear();
    }
}

/// Whether the second isn't the first.
fn is_other(tx: TxId, other: TxId) -> bool
    ensures { result ≡ not (tx_same tx other) }
{
    tx != other
}

/// The list without a transaction.
fn drop_one(list: &mut Vec<TxId>, tx: TxId)
    ensures items { list.new.items ≡ filter (λ t. not (tx_same tx t)) list.old.items }
    ensures room { vec_capacity list.new ≡ vec_capacity list.old }
{
    list.retain(|other| is_other(tx, *other));
}
