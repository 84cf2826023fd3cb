// The report of what sessions kept.

ghost use Rattle.std.specs.Prelude.{◌≡◌, true, IfOk, IfSome};
ghost use Rattle.std.specs.List.{AllByRecursion};
ghost use Rattle.std.specs.List.Sorted.{IsPermutation};
ghost use Rattle.session_books.specs.Laws.{plus, all_rows, all_counts, AreByPlace};
ghost use Rattle.report_text.specs.Report.{row_lines, IsReportOf};
ghost use Rattle.report_text.specs.Sinks.{TakesReport, Causes};

use crate::Memory;
use crate::counts::summary;
use crate::lines::{add_line, row_object};
use crate::texts::ReportError;
use io_model::{Failed, Sink, write_all};
use session_books::books::{Book, Row};
use session_books::counts::Counts;
use std::alloc::{AllocError, Global};

// Both counts together, if they can be said.
fn sum(one: Counts, other: Counts) -> Option<Counts>
    ensures { IfSome result (λ counts. counts ≡ plus one other) }
{
    Some(Counts {
        acknowledged: one.acknowledged.checked_add(other.acknowledged)?,
        unsettled: one.unsettled.checked_add(other.unsettled)?,
        aborted: one.aborted.checked_add(other.aborted)?,
    })
}

// What all books tell.
#[derive(Drop)]
struct Gathered {
    rows: Vec<Row>,
    counts: Counts,
}

impl Gathered {
    ghost use Rattle.std.specs.Prelude.{◌≡◌, ◌++◌, true, OnOk};
    ghost use Rattle.session_books.specs.Laws.{plus};

    // What one more book tells.
    fn add(&mut self, book: Book) -> Result<(), Memory>
        requires keeps { book.keeps ≡ true }
        ensures rows { OnOk result (self.new.rows.items ≡ self.old.rows.items ++ book.rows) }
        ensures counts { OnOk result (self.new.counts ≡ plus self.old.counts book.counts) }
    {
        let (mut rows, counts) = book.into_parts();
        match sum(self.counts, counts) {
            Some(counts) => self.counts = counts,
            None => return Err(AllocError),
        }
        self.rows.append(&mut rows)
    }
}

// The rows and counts of all books.
fn gather(alloc: Global, books: Vec<Book>) -> Result<Gathered, Memory>
    requires keeps { AllByRecursion (λ b. b.keeps ≡ true) books.items }
    ensures rows { IfOk result (λ all. all.rows.items ≡ all_rows books.items) }
    ensures counts { IfOk result (λ all. all.counts ≡ all_counts books.items) }
{
    let mut all = Gathered {
        rows: Vec::new(alloc),
        counts: Counts {
            acknowledged: 0,
            unsettled: 0,
            aborted: 0,
        },
    };
    for book in books {
        all.add(book)?;
    }
    Ok(all)
}

// The rows are put in the order of the places of their requests.
fn sort(rows: &mut [Row])
    ensures same { IsPermutation rows.old rows.new }
    ensures by_place { AreByPlace rows.new }
{
    rows.sort_unstable_by_key(|row| row.point);
}

// A line for each row.
fn lines(alloc: Global, rows: &[Row]) -> Result<Vec<u8>, Memory>
    ensures { IfOk result (λ text. text.items ≡ row_lines rows.now) }
{
    let mut text = Vec::new(alloc);
    for row in rows {
        let value = row_object(alloc, row)?;
        add_line(alloc, &mut text, value)?;
    }
    Ok(text)
}

/// The report of these books, which keep their rows, as bytes: a line for each row of all of them, by the places of the requests, and then the sum
/// of the counts. Takes time linear in what the rows hold, and for `n` rows n log n besides. Sums that no number of 64 bits can say are taken for
/// want of memory.
pub fn report_of_books(alloc: Global, books: Vec<Book>) -> Result<Vec<u8>, Memory>
    requires keeps { AllByRecursion (λ b. b.keeps ≡ true) books.items }
    ensures { IfOk result (λ text. IsReportOf books.items text.items) }
{
    let Gathered { mut rows, counts } = gather(alloc, books)?;
    sort(&mut rows);
    let mut text = lines(alloc, &rows)?;
    add_line(alloc, &mut text, summary(alloc, counts)?)?;
    Ok(text)
}

/// Writes the report of these books, which keep their rows. The text is made whole before the first write. After `Failed` the sink took some of it,
/// the first bytes first.
pub fn report_of_books_into<K: Sink>(
    alloc: Global,
    books: Vec<Book>,
    sink: &mut K,
) -> Result<(), ReportError>
    requires keeps { AllByRecursion (λ b. b.keeps ≡ true) books.items }
    ensures took { TakesReport (K.taken sink.old) (K.taken sink.new) books.items result }
    ensures cause { Causes (K.faults sink.old) (K.faults sink.new) result }
{
    let text = match report_of_books(alloc, books) {
        Ok(text) => text,
        Err(_) => return Err(ReportError::Memory),
    };
    match write_all(sink, &text) {
        Ok(()) => Ok(()),
        Err(Failed) => Err(ReportError::Failed),
    }
}
