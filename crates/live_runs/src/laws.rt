// What replies tell, in the history.
ghost use Rattle.live_runs.specs.Lived.{RepliesAreInHistory};

use protocol_laws::sessions::sessions_keep_order;

/// A reply "committed" is of a transaction that the history acknowledges, and an answer is that of an operation of its session in the history.
pub fn replies_are_in_history()
    ensures { RepliesAreInHistory }
{
    sessions_keep_order();
}
