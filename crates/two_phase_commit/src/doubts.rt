// Who is in doubt after a restart, and whom a reminder asks for.

ghost use Rattle.two_phase_commit.specs.Doubtful.{DoubtfulRise, WaitingAmong};

/// The condition of `Participant::new`, for the transactions that a restart finds in doubt.
pub fn doubtful_rise()
    ensures { DoubtfulRise }
{}

/// The voters that a reminder asks for are those that pass `asks_home` among any rising transactions that have all of them.
pub fn waiting_among()
    ensures { WaitingAmong }
{}
