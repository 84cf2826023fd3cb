// A transaction in its tries.
ghost use Rattle.std.specs.Prelude.{◌≡◌, ◌⊎◌, ℕ, suc, true, Some, IfErr};
ghost use Rattle.std.specs.List.{list_all};
ghost use Rattle.clv_base.specs.declared.names.TxId.{TxId};
ghost use Rattle.clv_base.specs.declared.names.Birth.{Birth as BirthIs};
ghost use Rattle.clv_base.specs.Shards.{are_splits};
ghost use Rattle.script_lang.specs.Laws.{is_narrow};
ghost use Rattle.script_runs.specs.Sessions.{has_left};
ghost use Rattle.script_runs.specs.Seen.{Active, untouched, going_at_start, Keeps};
ghost use Rattle.script_runs.specs.Ran.{NextIs, stop_in, IsIdle, IdleAfter, Ran, NotBegun};
ghost use Rattle.script_runs.specs.Books.{IsKept};
ghost use Rattle.script_runs.specs.Keeping.{TriesKept};

use crate::calls::SessionCalls;
use crate::fates::{Fate, count, later_fate};
use crate::trying::run_try;
use crate::{StopCause, TryEnd};
use clv_base::causes::AbortCause;
use script_lang::Transaction;
use session_books::books::Book;
use std::alloc::Global;
use std::sync::Wait;

/// What follows a try.
#[derive(Clone, Copy)]
pub enum Next {
    Again,
    Done,
    Stop(StopCause),
}

// Whether a further try may follow the one of this number.
fn has_more(most: Option<u32>, tried: u32) -> bool
    ensures { result ≡ has_left most tried }
{
    match most {
        None => true,
        Some(most) => tried < most,
    }
}

// The number of the next try, where it is bounded.
fn next_number(most: Option<u32>, tried: u32) -> u32
    requires { has_left most tried ≡ true }
    ensures { (n : ℕ) → most ≡ Some n → result ≡ suc tried }
{
    match most {
        None => tried,
        Some(_) => tried + 1,
    }
}

// An abort for another cause than that the session asked for it calls for a further try.
fn after_abort(cause: AbortCause, most: Option<u32>, tried: u32) -> Next
    ensures { NextIs (TryEnd.Aborted cause) most tried result }
{
    match cause {
        AbortCause::Asked => Next::Done,
        _ => {
            if has_more(most, tried) {
                Next::Again
            } else {
                Next::Done
            }
        }
    }
}

fn next_after(end: TryEnd, most: Option<u32>, tried: u32) -> Next
    ensures { NextIs end most tried result }
{
    match end {
        TryEnd::Stopped(cause) => Next::Stop(cause),
        TryEnd::Aborted(cause) => after_abort(cause, most, tried),
        _ => Next::Done,
    }
}

/// How the tries of a transaction ended, and as what it is counted.
#[derive(Clone, Copy)]
struct Tries {
    ended: Result<(), StopCause>,
    fate: Option<Fate>,
}

// The tries of the active transaction, which made nothing so far.
fn run_tries<R: Wait, C: SessionCalls>(
    rt: &R,
    alloc: Global,
    session: &mut C,
    transaction: &Transaction,
    most: Option<u32>,
    book: &mut Book,
) -> Tries
    requires session { C.holds session.old }
    requires begun { (tx : TxId) × (birth : BirthIs) × ((C.seen session.old).standing ≡ Active tx birth 0 untouched) × (tx.serial ≡ (C.seen session.old).serial) × (tx.run ≡ (C.seen session.old).run) × (tx.session ≡ (C.seen session.old).walker) }
    requires fresh { C.going session.old ≡ Some going_at_start }
    requires narrow { list_all is_narrow transaction.now.actions ≡ true }
    requires splits { are_splits (C.seen session.old).splits ≡ true }
    ensures session { C.holds session.new }
    ensures base { C.base session.new ≡ C.base session.old }
    ensures misses { Keeps (C.missed session.old) (C.missed session.new) }
    ensures kept { (tx : TxId) (birth : BirthIs) → (C.seen session.old).standing ≡ Active tx birth 0 untouched → tx.serial ≡ (C.seen session.old).serial → tx.run ≡ (C.seen session.old).run → tx.session ≡ (C.seen session.old).walker → TriesKept (C.missed session.new) transaction.now tx birth most result.ended result.fate book.old book.new (C.seen session.old) (C.seen session.new) }
    ensures idle { IdleAfter result.ended (C.seen session.new) }
    ensures grounds { IfErr result.ended (C.grounds session.new) }
{
    let mut tried = 1;
    let mut fate = None;
    for _ in rt.forever() {
        let made = run_try(rt, alloc, session, transaction, book);
        fate = later_fate(made.fate, fate);
        match next_after(made.end, most, tried) {
            Next::Again => match session.retry(alloc) {
                Ok(()) => tried = next_number(most, tried),
                Err(cause) => {
                    return Tries {
                        ended: Err(cause),
                        fate,
                    };
                }
            },
            Next::Done => return Tries {
                ended: Ok(()),
                fate,
            },
            Next::Stop(cause) => {
                return Tries {
                    ended: Err(cause),
                    fate,
                };
            }
        }
    }
    unreachable!()
}

/// Runs a transaction in its tries: it is tried again, with its birth, exactly where it was aborted for another cause than that the session asked for it, as
/// long as tries are left, which without a number they always are. The book is kept.
pub(crate) fn run_transaction<R: Wait, C: SessionCalls>(
    rt: &R,
    alloc: Global,
    session: &mut C,
    transaction: &Transaction,
    most: Option<u32>,
    book: &mut Book,
) -> Result<(), StopCause>
    requires session { C.holds session.old }
    requires idle { IsIdle (C.seen session.old) }
    requires narrow { list_all is_narrow transaction.now.actions ≡ true }
    requires kept { IsKept (C.seen session.old) book.old }
    ensures session { C.holds session.new }
    ensures base { C.base session.new ≡ C.base session.old }
    ensures misses { Keeps (C.missed session.old) (C.missed session.new) }
    ensures ran { Ran (C.missed session.new) transaction.now most (stop_in result) (C.seen session.old) (C.seen session.new) ⊎ NotBegun (stop_in result) (C.seen session.old) (C.seen session.new) }
    ensures idle { IdleAfter result (C.seen session.new) }
    ensures grounds { IfErr result (C.grounds session.new) }
    ensures kept { IsKept (C.seen session.new) book.new }
    ensures keeps { book.new.keeps ≡ book.old.keeps }
{
    match session.begin() {
        Ok(()) => {
            let tries = run_tries(rt, alloc, session, transaction, most, book);
            count(book, tries.fate, session.clock());
            tries.ended
        }
        Err(cause) => Err(cause),
    }
}
