// Whom each thing that is done, and each event, may make a candidate.

ghost use Rattle.protocol_laws.specs.Steps.{CommitsTouch, VotesTouch, RulingsTouch, OperationsTouch, RollsTouch, RequestsTouch, DropsTouch, PreparesTouch, AnswersTouch, DecisionsTouch, NobodyIsTouched};

/// A COMMIT that became durable touches its own transaction.
pub fn commits_touch()
    ensures { CommitsTouch }
{}

/// So does a vote.
pub fn votes_touch()
    ensures { VotesTouch }
{}

/// A ruling touches its own, a commit its successors besides, and an abort those that it takes away.
pub fn rulings_touch()
    ensures { RulingsTouch }
{}

/// An operation touches its own transaction, or those that its death takes away.
pub fn operations_touch()
    ensures { OperationsTouch }
{}

/// So does a going back.
pub fn rolls_touch()
    ensures { RollsTouch }
{}

/// A request touches its own, and its successors where it commits at once.
pub fn requests_touch()
    ensures { RequestsTouch }
{}

/// A drop touches those that it takes away.
pub fn drops_touch()
    ensures { DropsTouch }
{}

/// A Prepare touches its own and its successors.
pub fn prepares_touch()
    ensures { PreparesTouch }
{}

/// A vote or an acknowledgement that comes touches its own.
pub fn answers_touch()
    ensures { AnswersTouch }
{}

/// A decision touches its own and its successors, or those that an abort takes away.
pub fn decisions_touch()
    ensures { DecisionsTouch }
{}

/// Messages that go in or out, and the start of a flush, touch nobody.
pub fn nobody_is_touched()
    ensures { NobodyIsTouched }
{}
