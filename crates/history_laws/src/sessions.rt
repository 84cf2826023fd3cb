// What a session sees of its transactions.

ghost use Rattle.history_laws.specs.Ordering.{SessionsKeepTheirOrder};
ghost use Rattle.history_laws.specs.Outcomes.{OneOutcome};

/// Members of one session stand in the order of their serials.
pub fn sessions_keep_their_order()
    ensures { SessionsKeepTheirOrder }
{}

/// No transaction is told both that it is acknowledged and of an abort: that it died, that it was found aborted, or its session's own drop.
pub fn outcomes_are_one()
    ensures { OneOutcome }
{}
