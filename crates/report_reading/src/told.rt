// What a report tells.

ghost use Rattle.std.specs.Prelude.{◌≡◌};

use clv_base::lists::Pairs;
use clv_base::values::Value;
use session_books::books::Operations;
use session_books::counts::Counts;
use std::marker::Model;

/// A transaction: its session, its serial, and what it did, with the answers that it was given.
#[derive(Drop)]
pub struct ReportedTx {
    pub session: u32,
    pub serial: u64,
    pub acts: Operations,
}

/// Transactions, in the order of the report.
#[derive(Drop)]
pub struct Transactions {
    items: Vec<ReportedTx>,
}

impl Model for Transactions {
    ghost use Rattle.std.specs.Prelude.{List};
    ghost use Rattle.report_reading.specs.declared.told.ReportedTx.{ReportedTx};

    ghost Value = { List ReportedTx };

    ghost view = { λ t. t.items.items };
}

impl Transactions {
    /// The list of the vector's transactions, in its order. Takes no memory.
    pub fn new(items: Vec<ReportedTx>) -> Self
        ensures { result ≡ items.items }
    {
        Transactions { items }
    }

    /// The transactions, in order.
    pub fn as_slice(&self) -> &[ReportedTx]
        ensures { result.now ≡ self.now }
    {
        self.items.as_slice()
    }
}

/// The pairs that were shown before the run, its acknowledged transactions, and how many others there were.
#[derive(Drop)]
pub struct Reported {
    pub pairs: Pairs,
    pub txs: Transactions,
    pub unsettled: u64,
    pub aborted: u64,
}

/// What a line tells: a pair that was shown, a transaction, or what became of all.
#[derive(Drop)]
pub enum Line {
    Pair(u64, Value),
    Tx(ReportedTx),
    Sums(Counts),
}

// What comes of a line: it goes behind the others; it is the last one, with these counts; or no report goes on with it.
#[derive(Clone, Copy)]
pub enum Taken {
    Goes,
    Ends(Counts),
    Nowhere,
}
