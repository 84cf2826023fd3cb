// A session's transactions, one after another.
ghost use Rattle.std.specs.Prelude.{◌≡◌, true, IfErr};
ghost use Rattle.std.specs.List.{list_all};
ghost use Rattle.script_lang.specs.Laws.{is_narrow_body};
ghost use Rattle.script_runs.specs.Ran.{stop_in, IsIdle, IdleAfter, Follows};
ghost use Rattle.script_runs.specs.Books.{IsKept};
ghost use Rattle.script_runs.specs.Seen.{Keeps};

use crate::StopCause;
use crate::calls::SessionCalls;
use crate::retrying::run_transaction;
use script_lang::Transaction;
use session_books::books::Book;
use std::alloc::Global;
use std::sync::Wait;

/// Runs the transactions in order, each in its tries, at most so many, or without a number until it is done; an `Err` is what stopped the session, and no
/// transaction after that is begun. The entries that it adds to the session's are exactly those, what stopped it has its grounds, and the book tells what the
/// session's entries tell; it keeps its rows or not as before.
pub fn run_session<R: Wait, C: SessionCalls>(
    rt: &R,
    alloc: Global,
    session: &mut C,
    transactions: &[Transaction],
    most: Option<u32>,
    book: &mut Book,
) -> Result<(), StopCause>
    requires session { C.holds session.old }
    requires idle { IsIdle (C.seen session.old) }
    requires narrow { list_all is_narrow_body transactions.now ≡ true }
    requires kept { IsKept (C.seen session.old) book.old }
    ensures session { C.holds session.new }
    ensures base { C.base session.new ≡ C.base session.old }
    ensures misses { Keeps (C.missed session.old) (C.missed session.new) }
    ensures follows { Follows (C.missed session.new) transactions.now most (stop_in result) (C.seen session.old) (C.seen session.new) }
    ensures idle { IdleAfter result (C.seen session.new) }
    ensures grounds { IfErr result (C.grounds session.new) }
    ensures kept { IsKept (C.seen session.new) book.new }
    ensures keeps { book.new.keeps ≡ book.old.keeps }
{
    for transaction in transactions {
        match run_transaction(rt, alloc, session, transaction, most, book) {
            Ok(()) => {}
            Err(cause) => return Err(cause),
        }
    }
    Ok(())
}
