//! The numbers of the operations whose writes stand.
ghost use Rattle.std.specs.Prelude.{◌≡◌, ◌<◌, [], Some, IfSome, length, nat_le, nat_lt};
ghost use Rattle.std.specs.List.{filter};
ghost use Rattle.shard_machine.specs.Numbers.{AreOver, stacks, numbers_at};

use clv_base::names::TxId;
use std::alloc::{AllocError, Global};
use std::marker::Model;
use tx_table::TxTable;

/// The number of an operation that wrote, and the place of the note of its transaction's write below it, which stood then.
#[derive(Clone, Copy)]
pub struct Note {
    pub number: u64,
    pub below: Option<usize>,
}

/// How many notes are passed on the way down to one, and its place.
#[derive(Clone, Copy)]
struct Stop {
    passed: usize,
    place: Option<usize>,
}

/// Goes down from a note to the first one whose number isn't beyond this one.
fn go_down(notes: &[Note], from: usize, upto: u64) -> Stop
    requires over { AreOver [] notes.now }
    requires there { from < length notes.now }
    ensures passed { result.passed ≡ length (filter (nat_lt upto) (numbers_at (stacks notes.now) (Some from))) }
    ensures left { numbers_at (stacks notes.now) result.place ≡ filter (λ n. nat_le n upto) (numbers_at (stacks notes.now) (Some from)) }
    ensures there { IfSome result.place (λ i. i < length notes.now) }
{
    let mut passed = 0;
    let mut place = Some(from);
    while let Some(at) = place {
        let note = notes[at];
        if note.number <= upto {
            return Stop { passed, place };
        }
        passed += 1;
        place = note.below;
    }
    Stop { passed, place }
}

/// For each transaction the numbers of its operations whose writes stand. A note is never changed: where a transaction goes back, its newest
/// note is an older one. So this takes what one note takes for each write, and time for those that are taken back.
#[derive(Drop)]
pub struct Numbers {
    notes: Vec<Note>,
    newest: TxTable<usize>,
}

impl Model for Numbers {
    ghost use Rattle.std.specs.Prelude.{min, ◌-◌, vec_len, vec_capacity};
    ghost use Rattle.shard_machine.specs.Numbers.{Noted, AreNotes};

    ghost Value = { Noted };

    ghost view = { λ n. record { notes = n.notes.items; newest = n.newest.rows; room = min (vec_capacity n.notes - vec_len n.notes) n.newest.room } };

    ghost invariant = { λ n. AreNotes n.notes.items n.newest.rows };
}

impl Numbers {
    ghost use Rattle.std.specs.Prelude.{◌≡◌, ◌<◌, ◌∷◌, [], true, nat_le, IsTrue, OnOk, if◌then◌else◌};
    ghost use Rattle.std.specs.List.{filter};
    ghost use Rattle.clv_base.specs.declared.names.TxId.{TxId as Tx};
    ghost use Rattle.clv_base.specs.Orders.{tx_same};
    ghost use Rattle.clv_base.specs.Backs.{count_after};
    ghost use Rattle.shard_machine.specs.Numbers.{numbers_of, IsAbove};

    /// No number, and no room. Takes no memory.
    pub fn new(alloc: Global) -> Self
        ensures { (t : Tx) → numbers_of t result ≡ [] }
    {
        Numbers {
            notes: Vec::new(alloc),
            newest: TxTable::new(alloc),
        }
    }

    /// Makes room for one number more. The numbers stay.
    pub fn reserve(&mut self) -> Result<(), AllocError>
        ensures ok { OnOk result (0 < self.new.room) }
        ensures numbers { (t : Tx) → numbers_of t self.new ≡ numbers_of t self.old }
    {
        self.notes.reserve(1)?;
        self.newest.reserve(1)
    }

    /// Whether the number is above all those of the transaction.
    pub fn is_above(&self, tx: TxId, number: u64) -> bool
        ensures { IsTrue result → IsAbove number (numbers_of tx self.now) }
    {
        match self.newest.get(tx) {
            Some(at) => self.notes[at].number < number,
            None => true,
        }
    }

    /// An operation with this number wrote. Takes no memory.
    pub fn note(&mut self, tx: TxId, number: u64)
        requires room { 0 < self.old.room }
        requires above { IsAbove number (numbers_of tx self.old) }
        ensures { (t : Tx) → numbers_of t self.new ≡ (if tx_same tx t then number ∷ numbers_of tx self.old else numbers_of t self.old) }
    {
        let note = Note {
            number,
            below: self.newest.get(tx),
        };
        self.newest.set(tx, self.notes.len());
        self.notes.push_reserved(note);
    }

    /// How many numbers of the transaction are beyond this one.
    pub fn count_after(&self, tx: TxId, upto: u64) -> usize
        ensures { result ≡ count_after upto (numbers_of tx self.now) }
    {
        match self.newest.get(tx) {
            Some(at) => go_down(&self.notes, at, upto).passed,
            None => 0,
        }
    }

    /// The transaction goes back: its numbers beyond this one are gone. Takes no memory.
    pub fn go_back(&mut self, tx: TxId, upto: u64)
        ensures { (t : Tx) → numbers_of t self.new ≡ (if tx_same tx t then filter (λ n. nat_le n upto) (numbers_of tx self.old) else numbers_of t self.old) }
    {
        let Some(at) = self.newest.get(tx) else {
            return;
        };
        match go_down(&self.notes, at, upto).place {
            Some(place) => self.newest.replace(tx, place),
            None => self.newest.remove(tx),
        }
    }
}
