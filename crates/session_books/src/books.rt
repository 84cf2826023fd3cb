// Books.

ghost use Rattle.std.specs.Prelude.{◌≡◌, ◌<◌, ◌≤◌, ◌+◌, ◌++◌, ◌∷◌, [], true, false, OnOk, OnErr};
ghost use Rattle.session_books.specs.Counts.{nothing_counted};

use crate::Memory;
use crate::counts::Counts;
use crate::done::Done;
use clv_base::names::{Point, TxId};
use quiet_list::Told;
use std::alloc::Global;
use std::marker::Model;

/// What a transaction did, in order; a scan is one operation, and a going back is one.
#[derive(Drop)]
pub struct Operations {
    items: Vec<Done>,
}

impl Model for Operations {
    ghost use Rattle.std.specs.Prelude.{List};
    ghost use Rattle.session_books.specs.Done.{Done};

    ghost Value = { List Done };

    ghost view = { λ o. o.items.items };
}

impl Operations {
    /// The list of what the vector has, in its order. Takes no memory.
    pub fn new(items: Vec<Done>) -> Self
        ensures { result ≡ items.items }
    {
        Operations { items }
    }

    /// All of it, in order.
    pub fn as_slice(&self) -> &[Done]
        ensures { result.now ≡ self.now }
    {
        self.items.as_slice()
    }
}

/// An acknowledged transaction: its name, the place of its request, and what it did.
#[derive(Drop)]
pub struct Row {
    pub tx: TxId,
    pub point: Point,
    pub ops: Operations,
}

/// What a session tells of its transactions: a row for each that was acknowledged, in the order of their requests, and what became of all. A book that doesn't
/// keep its rows has them in proofs alone, and takes no memory for them.
#[derive(Drop)]
pub struct Book {
    keeps: bool,
    rows: Vec<Row>,
    told: Told<Row>,
    counts: Counts,
    reserved: usize,
}

impl Model for Book {
    ghost use Rattle.std.specs.Prelude.{◌≡◌, ◌+◌, ◌≤◌, true, vec_len, vec_capacity};
    ghost use Rattle.session_books.specs.Books.{Book};

    ghost Value = { Book };

    ghost view = { λ b. record { rows = b.told.items; counts = b.counts; room = b.reserved; keeps = b.keeps } };

    ghost invariant = { λ b. b.keeps ≡ true → (b.rows.items ≡ b.told.items) × (vec_len b.rows + b.reserved ≤ vec_capacity b.rows) };
}

// What became of no transaction.
fn none_counted() -> Counts
    ensures { result ≡ nothing_counted }
{
    Counts {
        acknowledged: 0,
        unsettled: 0,
        aborted: 0,
    }
}

impl Book {
    /// A book with no row, and no room, which keeps its rows. Takes no memory.
    pub fn new(alloc: Global) -> Self
        ensures blank { (result.rows ≡ []) × (result.counts ≡ nothing_counted) × (result.room ≡ 0) }
        ensures keeps { result.keeps ≡ true }
    {
        Book {
            keeps: true,
            rows: Vec::new(alloc),
            told: Told::new(),
            counts: none_counted(),
            reserved: 0,
        }
    }

    /// A book with no row, and no room, which keeps its counts alone. It never takes memory.
    pub fn of_counts(alloc: Global) -> Self
        ensures blank { (result.rows ≡ []) × (result.counts ≡ nothing_counted) × (result.room ≡ 0) }
        ensures keeps { result.keeps ≡ false }
    {
        Book {
            keeps: false,
            rows: Vec::new(alloc),
            told: Told::new(),
            counts: none_counted(),
            reserved: 0,
        }
    }

    /// Makes room for so many rows beyond those that are in, where there is less. Where there is no memory all stays; a book that doesn't keep its rows needs
    /// none.
    pub fn reserve(&mut self, count: usize) -> Result<(), Memory>
        ensures ok { OnOk result (count ≤ self.new.room) }
        ensures room { self.old.room ≤ self.new.room }
        ensures same { self.new ≡ record self.old { room = self.new.room } }
        ensures err { OnErr result (self.new ≡ self.old) }
    {
        if count <= self.reserved {
            return Ok(());
        }
        if self.keeps {
            self.rows.reserve(count)?;
        }
        self.reserved = count;
        Ok(())
    }

    /// A row goes behind the others. Takes no memory.
    pub fn push(&mut self, row: Row)
        requires { 0 < self.old.room }
        ensures rows { self.new.rows ≡ self.old.rows ++ row ∷ [] }
        ensures counts { self.new.counts ≡ self.old.counts }
        ensures room { self.old.room ≡ self.new.room + 1 }
        ensures keeps { self.new.keeps ≡ self.old.keeps }
    {
        self.told.push(&row);
        self.reserved -= 1;
        if self.keeps {
            self.rows.push_reserved(row);
        }
    }

    /// What became of the transactions.
    pub fn counts(&self) -> Counts
        ensures { result ≡ self.now.counts }
    {
        self.counts
    }

    /// These are the counts from now on.
    pub fn set_counts(&mut self, counts: Counts)
        ensures { self.new ≡ record self.old { counts = counts } }
    {
        self.counts = counts;
    }

    /// The rows, in order, where they are kept.
    pub fn rows(&self) -> &[Row]
        requires { self.now.keeps ≡ true }
        ensures { result.now ≡ self.now.rows }
    {
        self.rows.as_slice()
    }

    /// The rows and the counts, given away, where the rows are kept. Takes no memory.
    pub fn into_parts(self) -> (Vec<Row>, Counts)
        requires { self.keeps ≡ true }
        ensures rows { result.0.items ≡ self.rows }
        ensures counts { result.1 ≡ self.counts }
    {
        let Book { rows, counts, .. } = self;
        (rows, counts)
    }
}
