// The laws.

ghost use Rattle.two_phase_commit.specs.Unended.{UnendedAreNamed, UnendedRise};
ghost use Rattle.two_phase_commit.specs.Waiting.{RemindersByWaiting};

/// The conditions of `Coordinator::restored`, for the commits that a restart finds without an END.
pub fn unended_rise()
    ensures rise { UnendedRise }
    ensures named { UnendedAreNamed }
{}

/// The durable ones among those that wait are enough for `Coordinator::reminders`.
pub fn reminders_by_waiting()
    ensures { RemindersByWaiting }
{}
