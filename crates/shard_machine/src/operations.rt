//! What a session asks of one shard.
ghost use Rattle.std.specs.Prelude.{◌≡◌, true, IfOk, OnErr};
ghost use Rattle.clv_base.specs.declared.events.Event.TheVariants.{Op as OpEvent};
ghost use Rattle.clv_base.specs.Events.{happen_up};
ghost use Rattle.clv_base.specs.FileRules.{tx_has_spelling};
ghost use Rattle.shard_core.specs.Whole.{IsAtRest};
ghost use Rattle.shard_machine.specs.Happening.{Happens};

use crate::happening::Happened;
use clv_base::events::Outcome;
use clv_base::names::{Birth, TxId};
use clv_base::ops::Op;
use lock_table::Locks;
use ordered_store::Store;
use shard_core::ShardCore;
use std::alloc::Global;
use txn_core::{Memory, Reply};

/// An operation.
pub fn operate<S: Store + Drop, L: Locks + Drop>(
    core: &mut ShardCore<S, L>,
    alloc: Global,
    tx: TxId,
    birth: Birth,
    nth: u64,
    seen: Option<u64>,
    op: &Op,
) -> Result<Happened, Memory>
    requires rest { IsAtRest core.old }
    requires name { tx_has_spelling tx ≡ true }
    ensures ok { IfOk result (λ h. Happens (happen_up core.old.shard (OpEvent tx birth nth seen op.now)) core.old.shard h core.new.shard) }
    ensures err { OnErr result (core.new.shard ≡ core.old.shard) }
    ensures rest { IsAtRest core.new }
{
    match core.operate(alloc, tx, birth, seen, op) {
        Ok(
            Reply::Answered {
                answer,
                copy,
                epoch,
            },
        ) => Ok(Happened::Done {
            outcome: Outcome::Answered { answer, epoch },
            copy: Outcome::Answered {
                answer: copy,
                epoch,
            },
        }),
        Ok(Reply::Dead(cause)) => Ok(Happened::Done {
            outcome: Outcome::Dead(cause),
            copy: Outcome::Dead(cause),
        }),
        Ok(Reply::Wait { younger }) => Ok(Happened::Quiet(Outcome::Wait { younger })),
        Ok(Reply::Crowded { count }) => Ok(Happened::Quiet(Outcome::Crowded { count })),
        Err(memory) => Err(memory),
    }
}
