// Candidates: transactions among which all are for which something is due.

ghost use Rattle.protocol_laws.specs.Candidates.{DueByFacts, LeastIsNext, OthersCover, NoneIsNothing, AtRestNone, DoingGoesOn, NothingToDo};

/// Whether something is due for a transaction is told by its facts, and by what is kept of it as a voter and as a request.
pub fn due_by_facts()
    ensures { DueByFacts }
{}

/// The next thing that is due is that of the least candidate for which something is due.
pub fn least_is_next()
    ensures { LeastIsNext }
{}

/// A candidate for which nothing is due may be left out.
pub fn others_cover()
    ensures { OthersCover }
{}

/// Where there is no candidate, nothing is due.
pub fn none_is_nothing()
    ensures { NoneIsNothing }
{}

/// Where nothing is due, there need be no candidate.
pub fn at_rest_none()
    ensures { AtRestNone }
{}

/// What is left when all that is due is done is the same after the next thing is done.
pub fn doing_goes_on()
    ensures { DoingGoesOn }
{}

/// Where nothing is due, all stays.
pub fn nothing_to_do()
    ensures { NothingToDo }
{}
