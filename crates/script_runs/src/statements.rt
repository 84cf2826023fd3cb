// Laws of sessions.

ghost use Rattle.script_runs.specs.Laws.{SessionsGoOn, SessionsStop};

use crate::SessionCalls;

/// A session that ran some transactions and then others ran all of them.
pub fn sessions_go_on<C: SessionCalls>()
    ensures { SessionsGoOn C.missed }
{}

/// One that was stopped in some transactions was stopped before all that was to follow.
pub fn sessions_stop<C: SessionCalls>()
    ensures { SessionsStop C.missed }
{}
