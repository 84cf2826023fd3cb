//! The journal.
ghost use Rattle.std.specs.Prelude.{◌≡◌, ◌<◌, ◌++◌, ◌∷◌, [], ℕ, cond, true, Option, None, IfSome, OnOk, length};
ghost use Rattle.clv_base.specs.declared.names.TxId.{TxId as Tx};
ghost use Rattle.clv_base.specs.declared.names.Birth.{Birth};
ghost use Rattle.clv_base.specs.declared.events.Event.TheVariants.{Op as OpEvent, RollTo};
ghost use Rattle.clv_base.specs.Orders.{tx_same, tx_get};
ghost use Rattle.clv_base.specs.Backs.{has_written, numbers_after, standing_numbers, count_after};
ghost use Rattle.clv_base.specs.Events.{epoch_in, request_epoch};
ghost use Rattle.shard_machine.specs.Journaled.{named_by, first_or, is_request, MayNote, MayWrite, MayEnter};
ghost use Rattle.shard_machine.specs.Numbers.{numbers_of};

use crate::Numbers;
use clv_base::events::{Entry, Event, Outcome};
use clv_base::names::TxId;
use clv_base::ops::{Answer, Op};
use quiet_list::Told;
use std::alloc::{AllocError, Global};
use std::marker::Model;
use tx_table::TxTable;

/// The entries of a shard, the oldest first. They are kept in proofs alone; what is kept of them is how many they are, the epoch of each request, and
/// for each transaction the numbers of its operations whose writes stand. So an entry takes memory only where it is of a request or of an operation.
#[derive(Drop)]
pub struct Journal {
    shard: u32,
    entries: Told<Entry>,
    count: usize,
    epochs: TxTable<u64>,
    numbers: Numbers,
}

impl Model for Journal {
    ghost use Rattle.shard_machine.specs.Journaled.{Journaled, IsKept};

    ghost Value = { Journaled };

    ghost view = { λ j. record { shard = j.shard; entries = j.entries.items; places = j.epochs.room; writes = j.numbers.room } };

    ghost invariant = { λ j. IsKept j.shard j.count j.entries.items j.epochs.rows j.numbers };
}

/// The epoch that is named for a shard, if one is.
fn epoch_for(shard: u32, parts: &[(u32, u64)]) -> Option<u64>
    ensures { result ≡ epoch_in shard parts.now }
{
    for part in parts {
        if shard == part.0 {
            return Some(part.1);
        }
    }
    None
}

/// The transaction whose request is granted, with the epoch that it names for the shard.
fn asked(shard: u32, entry: &Entry) -> Option<(TxId, u64)>
    ensures named { (t : Tx) → named_by shard t entry.now ≡ elim result [ Some p ↦ cond (tx_same t p.0) (Some p.1) None | None ↦ None ] }
    ensures request { IfSome result (λ p. is_request entry.now.event ≡ true) }
{
    match (&entry.outcome, &entry.event) {
        (Outcome::Asked, Event::Request { tx, parts }) => match epoch_for(shard, parts.as_slice()) {
            Some(epoch) => Some((*tx, epoch)),
            None => None,
        },
        _ => None,
    }
}

/// The first epoch of a transaction's requests stays.
fn note(epochs: &mut TxTable<u64>, tx: TxId, epoch: u64)
    requires { 0 < epochs.old.room }
    ensures { (t : Tx) → tx_get t epochs.new.rows ≡ first_or (tx_get t epochs.old.rows) (cond (tx_same t tx) (Some epoch) None) }
{
    if epochs.get(tx).is_none() {
        epochs.set(tx, epoch);
    }
}

/// The epoch that an entry names stays, if none was named before.
fn note_entry(shard: u32, epochs: &mut TxTable<u64>, entry: &Entry)
    requires { is_request entry.now.event ≡ true → 0 < epochs.old.room }
    ensures { (t : Tx) → tx_get t epochs.new.rows ≡ first_or (tx_get t epochs.old.rows) (named_by shard t entry.now) }
{
    if let Some((tx, epoch)) = asked(shard, entry) {
        note(epochs, tx, epoch);
    }
}

/// Whether an operation with this answer wrote.
fn wrote(op: &Op, answer: &Answer) -> bool
    ensures { result ≡ has_written op.now answer.now }
{
    match op {
        Op::Get(_) | Op::Scan(_, _) => false,
        Op::Put(_, _) => true,
        Op::Del(_) => matches!(answer, Answer::Value(Some(_))),
        Op::Add(_, _) => matches!(answer, Answer::Added(true)),
    }
}

/// An operation comes to this: its number is noted where it wrote.
fn note_op(numbers: &mut Numbers, tx: TxId, nth: u64, op: &Op, outcome: &Outcome)
    requires { MayNote numbers.old.room nth (numbers_of tx numbers.old) }
    ensures { (t : Tx) (birth : Birth) (seen : Option ℕ) → numbers_of t numbers.new ≡ numbers_after t (OpEvent tx birth nth seen op.now) outcome.now (numbers_of t numbers.old) }
{
    match outcome {
        Outcome::Answered { answer, epoch: _ } => {
            if wrote(op, answer) {
                numbers.note(tx, nth);
            }
        }
        _ => {}
    }
}

/// A going back comes to this: numbers beyond are forgotten where it took their writes away.
fn note_back(numbers: &mut Numbers, tx: TxId, upto: u64, outcome: &Outcome)
    ensures { (t : Tx) (nth : ℕ) (seen : ℕ) → numbers_of t numbers.new ≡ numbers_after t (RollTo tx nth seen upto) outcome.now (numbers_of t numbers.old) }
{
    match outcome {
        Outcome::Rolled => numbers.go_back(tx, upto),
        _ => {}
    }
}

/// The numbers of the operations whose writes stand after an entry.
fn note_write(numbers: &mut Numbers, entry: &Entry)
    requires { MayWrite entry.now.event numbers.old }
    ensures { (t : Tx) → numbers_of t numbers.new ≡ numbers_after t entry.now.event entry.now.outcome (numbers_of t numbers.old) }
{
    match &entry.event {
        Event::Op { tx, nth, op, .. } => {
            note_op(numbers, *tx, *nth, &op.op(), &entry.outcome);
        }
        Event::RollTo { tx, upto, .. } => note_back(numbers, *tx, *upto, &entry.outcome),
        _ => {}
    }
}

impl Journal {
    /// A journal with no entry, and no room. Takes no memory.
    pub fn new(alloc: Global, shard: u32) -> Self
        ensures { (result.shard ≡ shard) × (result.entries ≡ []) }
    {
        Journal {
            shard,
            entries: Told::new(),
            count: 0,
            epochs: TxTable::new(alloc),
            numbers: Numbers::new(alloc),
        }
    }

    /// Makes room for the epoch of one request, and changes nothing else.
    pub fn reserve_request(&mut self) -> Result<(), AllocError>
        ensures ok { OnOk result (0 < self.new.places) }
        ensures same { self.new ≡ record self.old { places = self.new.places } }
    {
        self.epochs.reserve(1)
    }

    /// Makes room for the number of an operation, where it is above those of the transaction's writes, and changes nothing else. False where it isn't, as
    /// of no session that numbers its operations in order, and where there is no memory.
    pub fn reserve_write(&mut self, tx: TxId, nth: u64) -> bool
        ensures ok { result ≡ true → MayNote self.new.writes nth (standing_numbers tx self.new.entries) }
        ensures same { self.new ≡ record self.old { writes = self.new.writes } }
    {
        self.numbers.is_above(tx, nth) && self.numbers.reserve().is_ok()
    }

    /// An entry goes behind the others. Its stamp is greater than they are many. Takes no memory.
    pub fn push(&mut self, entry: Entry)
        requires few { length self.old.entries < entry.stamp }
        requires place { MayEnter self.old entry.event }
        ensures entries { self.new.entries ≡ self.old.entries ++ entry ∷ [] }
        ensures shard { self.new.shard ≡ self.old.shard }
    {
        note_entry(self.shard, &mut self.epochs, &entry);
        note_write(&mut self.numbers, &entry);
        self.entries.push(&entry);
        self.count += 1;
    }

    /// The epoch of this shard that the transaction's first request named.
    pub fn request_epoch(&self, tx: TxId) -> Option<u64>
        ensures { result ≡ request_epoch self.now.shard tx self.now.entries }
    {
        self.epochs.get(tx)
    }

    /// How many writes of the transaction's operations beyond this number stand.
    pub fn count_after(&self, tx: TxId, upto: u64) -> usize
        ensures { result ≡ count_after upto (standing_numbers tx self.now.entries) }
    {
        self.numbers.count_after(tx, upto)
    }

    /// How many entries there are.
    pub fn count(&self) -> usize
        ensures { result ≡ length self.now.entries }
    {
        self.count
    }

    /// The entries, given away. Takes no memory.
    pub fn into_entries(self) -> Told<Entry>
        ensures { result.items ≡ self.entries }
    {
        let Journal {
            shard: _,
            entries,
            count: _,
            epochs: _,
            numbers: _,
        } = self;
        entries
    }
}
