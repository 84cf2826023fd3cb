// What the books of all sessions make.

ghost use Rattle.session_books.specs.Laws.{BooksMakeTheReport};

/// In a legal history whose sessions kept these books, the rows of all books, sorted by the places of their requests, are the history's rows, and the sum of
/// their counts is the history's.
pub fn books_make_the_report()
    ensures { BooksMakeTheReport }
{}
