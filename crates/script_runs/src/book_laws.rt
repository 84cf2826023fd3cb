// What tries add to a session's book.
ghost use Rattle.script_runs.specs.Books.{AcknowledgedHaveRows, OthersHaveNone, TransactionsAddToBooks, NewBooksAreKept};

/// An acknowledged try has one row: its name, the place of its request, and what it did.
pub fn acknowledged_have_rows()
    ensures { AcknowledgedHaveRows }
{}

/// Any other try has none.
pub fn others_have_none()
    ensures { OthersHaveNone }
{}

/// A transaction adds the rows of its tries to those of the entries before, and is counted once, if its tries made an operation: as the last that made one.
pub fn transactions_add_to_books()
    ensures { TransactionsAddToBooks }
{}

/// A new book is that of a session that made nothing.
pub fn new_books_are_kept()
    ensures { NewBooksAreKept }
{}
