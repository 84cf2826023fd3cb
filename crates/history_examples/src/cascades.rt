// A refused vote, and all that goes with the aborted transaction.

ghost use Rattle.history_examples.specs.Cascades.{Chain, Chain_causes, Gap_split, Gap_undone};

/// One shard restarted before its Prepare came and refuses. The first transaction is aborted at its home and takes the second, which violated
/// it there, with it; the abort that the second's home sends takes a third, which violated the second on another shard. On each shard the
/// ABORTs rise, and the CLRs go from the greatest LSN down.
pub fn chain_is_aborted()
    ensures { Chain }
{}

/// In that history the aborts that the second and the third are told of stand on the shards where they were told.
pub fn chain_has_its_causes()
    ensures { Chain_causes }
{}

/// A first transaction inserts 5 into an empty shard and closes; a second inserts 7 above it. The gap parts held on 5 are copied to 7, and the
/// first is the second's predecessor.
pub fn gap_split_is_violated()
    ensures { Gap_split }
{}

/// The first is aborted: both inserts are undone, the ghosts bear no lock and go in the same event, and the second ends by its predecessor.
pub fn undone_inserts_leave_nothing()
    ensures { Gap_undone }
{}
