// What the report of books is.

ghost use Rattle.report_text.specs.Laws.{BooksReport, BooksAreReported};

use session_books::statements::books_make_the_report;

/// In a legal history whose sessions kept these books, their report is the history's.
pub fn books_report()
    ensures { BooksReport }
{
    books_make_the_report();
}

/// So what a sink takes of it is what it takes of the history's report.
pub fn books_are_reported()
    ensures { BooksAreReported }
{
    books_make_the_report();
}
