// Who waits for whom.

ghost use Rattle.fate_laws.specs.Waiting.{WaitsGoDown, WaitsHaveNoCycle};

/// A transaction without a request waits only for active ones that are younger, for ones with a request, or for ones that were in doubt on
/// some shard in the logs found at opening; one with a request waits only for ones whose request was taken before its own, or that were in doubt.
pub fn waits_go_down()
    ensures { WaitsGoDown }
{}

/// No transaction waits for itself, through any number of others.
pub fn waits_have_no_cycle()
    ensures { WaitsHaveNoCycle }
{}
