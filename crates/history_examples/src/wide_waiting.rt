// Two transactions that wait after a legal history.

ghost use Rattle.history_examples.specs.WideWaiting.{WaitingIsLegal, ReaderWaits, OlderWaits};

/// The reader of two shards has made its request, the writer's COMMIT is buffered, and another transaction is active; the history is legal.
pub fn waiting_is_legal()
    ensures { WaitingIsLegal }
{}

/// The reader waits for the writer, by its request.
pub fn reader_waits()
    ensures { ReaderWaits }
{}

/// An older transaction of a session without entries waits for the younger active one, by an operation that it may make.
pub fn older_waits()
    ensures { OlderWaits }
{}
