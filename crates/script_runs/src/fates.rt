// As what transactions are counted.
ghost use Rattle.std.specs.Prelude.{◌≡◌, ◌+◌, ◌^◌, ◌<◌, Some};
ghost use Rattle.script_runs.specs.Books.{else_fate, count_as, total};
ghost use Rattle.script_runs.specs.Keeping.{fate_told};

use crate::TryEnd;
use session_books::books::Book;
use session_books::counts::Counts;

/// As what a transaction is counted.
#[derive(Clone, Copy)]
pub enum Fate {
    Acknowledged,
    Unsettled,
    Aborted,
}

// As what a try is counted that ended so, if it made an operation; its request stands without an answer, or not.
pub(crate) fn fate_of(has_op: bool, end: TryEnd, asked: bool) -> Option<Fate>
    ensures { result ≡ fate_told has_op end asked }
{
    if !has_op {
        return None;
    }
    match end {
        TryEnd::Acknowledged => Some(Fate::Acknowledged),
        _ => {
            if asked {
                Some(Fate::Unsettled)
            } else {
                Some(Fate::Aborted)
            }
        }
    }
}

// As what a transaction is counted after one more try.
pub(crate) fn later_fate(last: Option<Fate>, before: Option<Fate>) -> Option<Fate>
    ensures { result ≡ else_fate last before }
{
    match last {
        None => before,
        Some(fate) => Some(fate),
    }
}

fn counted(counts: Counts, fate: Fate) -> Counts
    requires { total counts + 1 < 2 ^ 64 }
    ensures { result ≡ count_as (Some fate) counts }
{
    let mut counts = counts;
    match fate {
        Fate::Acknowledged => counts.acknowledged += 1,
        Fate::Unsettled => counts.unsettled += 1,
        Fate::Aborted => counts.aborted += 1,
    }
    counts
}

// A transaction is counted. There were fewer before it than the clock of its session.
pub(crate) fn count(book: &mut Book, fate: Option<Fate>, clock: u64)
    requires { total book.old.counts < clock }
    ensures rows { book.new.rows ≡ book.old.rows }
    ensures counts { book.new.counts ≡ count_as fate book.old.counts }
    ensures keeps { book.new.keeps ≡ book.old.keeps }
{
    match fate {
        None => {}
        Some(fate) => {
            let counts = counted(book.counts(), fate);
            book.set_counts(counts);
        }
    }
}
