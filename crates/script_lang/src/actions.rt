// What the lines of a transaction ask for.

use clv_base::kept::KeptOp;

/// A line of a transaction: an operation; an amount that moves from one key to another where both have numbers and there is room; a savepoint,
/// or a going back to the one of this number.
#[derive(Drop)]
pub enum Action {
    Do(KeptOp),
    Move { from: u64, to: u64, amount: u64 },
    Save,
    Back(u64),
}

/// How a transaction is to end.
#[derive(Clone, Copy, PartialEq, Eq)]
pub enum Ending {
    Commit,
    Abort,
}
