//! Votes, decisions, acknowledgements and questions that come.
ghost use Rattle.std.specs.Prelude.{◌≡◌, true, IfOk, OnErr};
ghost use Rattle.clv_base.specs.FileRules.{tx_has_spelling};
ghost use Rattle.clv_base.specs.Orders.{tx_get};
ghost use Rattle.clv_base.specs.Facts.{facts_of};
ghost use Rattle.clv_base.specs.Participant.{taken_by};
ghost use Rattle.clv_base.specs.Events.{on_vote, on_done, on_ask, on_decide};
ghost use Rattle.shard_core.specs.Whole.{IsAtRest};
ghost use Rattle.shard_machine.specs.Happening.{Happens};

use crate::happening::Happened;
use clv_base::causes::Vote;
use clv_base::events::Outcome;
use clv_base::names::TxId;
use lock_table::Locks;
use ordered_store::Store;
use shard_core::ShardCore;
use txn_core::Memory;

/// A vote comes. Takes no memory.
pub fn take_vote<S: Store + Drop, L: Locks + Drop>(
    core: &mut ShardCore<S, L>,
    tx: TxId,
    from: u32,
    vote: Vote,
) -> Happened
    requires { IsAtRest core.old }
    ensures happens { Happens (on_vote core.old.shard tx from vote (tx_get tx (core.old.shard).requests)) core.old.shard result core.new.shard }
    ensures rest { IsAtRest core.new }
{
    if core.awaits_vote(tx, from) {
        core.take_vote(tx, from, vote);
        Happened::Done {
            outcome: Outcome::Taken,
            copy: Outcome::Taken,
        }
    } else {
        Happened::Quiet(Outcome::Stale)
    }
}

/// An acknowledgement comes. Takes no memory.
pub fn take_done<S: Store + Drop, L: Locks + Drop>(
    core: &mut ShardCore<S, L>,
    tx: TxId,
    from: u32,
) -> Happened
    requires { IsAtRest core.old }
    ensures happens { Happens (on_done core.old.shard tx from (tx_get tx (core.old.shard).requests)) core.old.shard result core.new.shard }
    ensures rest { IsAtRest core.new }
{
    if core.awaits_done(tx, from) {
        core.take_done(tx, from);
        Happened::Done {
            outcome: Outcome::Taken,
            copy: Outcome::Taken,
        }
    } else {
        Happened::Quiet(Outcome::Stale)
    }
}

/// A decision comes.
pub fn take_decision<S: Store + Drop, L: Locks + Drop>(
    core: &mut ShardCore<S, L>,
    tx: TxId,
    home: u32,
    commit: bool,
) -> Result<Happened, Memory>
    requires rest { IsAtRest core.old }
    requires name { tx_has_spelling tx ≡ true }
    ensures ok { IfOk result (λ h. Happens (on_decide core.old.shard tx home commit (taken_by (facts_of core.old.shard tx) commit)) core.old.shard h core.new.shard) }
    ensures err { OnErr result (core.new.shard ≡ core.old.shard) }
    ensures rest { IsAtRest core.new }
{
    match core.take_decision(tx, home, commit) {
        Ok(true) => Ok(Happened::Done {
            outcome: Outcome::Taken,
            copy: Outcome::Taken,
        }),
        Ok(false) => Ok(Happened::Quiet(Outcome::Stale)),
        Err(memory) => Err(memory),
    }
}

/// A question comes.
pub fn answer_question<S: Store + Drop, L: Locks + Drop>(
    core: &mut ShardCore<S, L>,
    tx: TxId,
    from: u32,
) -> Result<Happened, Memory>
    requires { IsAtRest core.old }
    ensures ok { IfOk result (λ h. Happens (on_ask core.old.shard tx from) core.old.shard h core.new.shard) }
    ensures err { OnErr result (core.new.shard ≡ core.old.shard) }
    ensures rest { IsAtRest core.new }
{
    match core.take_question(tx, from) {
        Ok(()) => Ok(Happened::Done {
            outcome: Outcome::Taken,
            copy: Outcome::Taken,
        }),
        Err(memory) => Err(memory),
    }
}
