//! Any message that is for this shard.
ghost use Rattle.std.specs.Prelude.{◌≡◌, ◌<◌, true, IfOk, OnErr};
ghost use Rattle.clv_base.specs.Undo.{stage_of};
ghost use Rattle.clv_base.specs.Events.{on_prepare, on_message};
ghost use Rattle.machine_calls.specs.Events.{message_fits};
ghost use Rattle.shard_core.specs.Whole.{IsAtRest};
ghost use Rattle.shard_machine.specs.Happening.{Happens};

use crate::{Happened, answer_question, take_decision, take_done, take_vote};
use clv_base::events::Outcome;
use clv_base::messages::Message;
use clv_base::names::TxId;
use lock_table::Locks;
use ordered_store::Store;
use shard_core::ShardCore;
use std::alloc::Global;
use txn_core::Memory;

/// A Prepare comes.
fn take_prepare<S: Store + Drop, L: Locks + Drop>(
    core: &mut ShardCore<S, L>,
    alloc: Global,
    tx: TxId,
    home: u32,
    seen: u64,
) -> Result<Happened, Memory>
    requires rest { IsAtRest core.old }
    requires home { home < 16 }
    ensures ok { IfOk result (λ h. Happens (on_prepare core.old.shard tx home seen (stage_of (core.old.shard).local tx)) core.old.shard h core.new.shard) }
    ensures err { OnErr result (core.new.shard ≡ core.old.shard) }
    ensures rest { IsAtRest core.new }
{
    match core.prepare(alloc, tx, home, seen) {
        Ok(true) => Ok(Happened::Done {
            outcome: Outcome::Taken,
            copy: Outcome::Taken,
        }),
        Ok(false) => Ok(Happened::Quiet(Outcome::Stale)),
        Err(memory) => Err(memory),
    }
}

/// A message for this shard comes. Where there is no memory the shard stays as it was.
pub(crate) fn hear<S: Store + Drop, L: Locks + Drop>(
    core: &mut ShardCore<S, L>,
    alloc: Global,
    message: Message,
) -> Result<Happened, Memory>
    requires rest { IsAtRest core.old }
    requires fits { message_fits message ≡ true }
    ensures ok { IfOk result (λ h. Happens (on_message core.old.shard message) core.old.shard h core.new.shard) }
    ensures err { OnErr result (core.new.shard ≡ core.old.shard) }
    ensures rest { IsAtRest core.new }
{
    match message {
        Message::Prepare {
            to: _,
            tx,
            home,
            seen,
        } => take_prepare(core, alloc, tx, home, seen),
        Message::Vote {
            to: _,
            tx,
            from,
            vote,
        } => Ok(take_vote(core, tx, from, vote)),
        Message::Decide {
            to: _,
            tx,
            home,
            commit,
        } => take_decision(core, tx, home, commit),
        Message::Done { to: _, tx, from } => Ok(take_done(core, tx, from)),
        Message::Ask { to: _, tx, from } => answer_question(core, tx, from),
    }
}
