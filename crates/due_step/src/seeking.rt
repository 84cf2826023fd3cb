//! Finding it by little.
ghost use Rattle.std.specs.Prelude.{◌≡◌, ◌&&◌, IfSome, is_none, is_some};
ghost use Rattle.clv_base.specs.State.{Shard};
ghost use Rattle.clv_base.specs.Facts.{facts_in, facts_of, is_closed_state, state_by, doom_by};
ghost use Rattle.clv_base.specs.Logs.{is_below as below};
ghost use Rattle.due_step.specs.Found.{Finds, IsSpelledDue};
ghost use Rattle.due_step.specs.Steps.{ArePrepares};

use crate::finding::{Due, find_due, is_below};
use clv_base::names::TxId;
use clv_base::state::Stage;
use lock_table::Locks;
use ordered_store::Store;
use two_phase_commit::{Coordinator, Participant};
use tx_table::TxTable;
use txn_core::ShardTx;

/// Whether a COMMIT of a closed part is durable.
fn is_landed(stage: Option<Stage>, commit: Option<u64>, durable: u64) -> bool
    ensures { result ≡ (is_closed_state (state_by stage) && below commit durable) }
{
    match stage {
        Some(Stage::Closed) => is_below(commit, durable),
        Some(Stage::Active | Stage::Gone { .. }) | None => false,
    }
}

/// Whether a part is closed and undecided.
fn waits(stage: Option<Stage>, commit: Option<u64>) -> bool
    ensures { result ≡ (is_closed_state (state_by stage) && is_none commit) }
{
    match stage {
        Some(Stage::Closed) => commit.is_none(),
        Some(Stage::Active | Stage::Gone { .. }) | None => false,
    }
}

/// Whether an abort took a part away.
fn is_doomed(stage: Option<Stage>) -> bool
    ensures { result ≡ is_some (doom_by stage) }
{
    match stage {
        Some(Stage::Gone { doom }) => doom.is_some(),
        Some(Stage::Active | Stage::Closed) | None => false,
    }
}

/// What is due for the transaction; the tables of voters and requests keep it. For most a look at the part, its COMMIT and the request tells, and all
/// facts are gathered only where that leaves it open. Takes no memory.
pub(crate) fn seek_due<S: Store + Drop, L: Locks + Drop>(
    tx: TxId,
    transactions: &ShardTx<S, L>,
    prepares: &TxTable<u64>,
    participant: &mut Participant,
    coordinator: &mut Coordinator,
) -> Option<Due>
    requires { ArePrepares prepares.now.rows (transactions.now.local).log }
    ensures found { (s : Shard) → s.shard ≡ coordinator.old.shard → s.voters ≡ participant.old.voters → s.requests ≡ coordinator.old.requests → facts_of s tx ≡ facts_in transactions.now.local transactions.now.durable tx → Finds s tx result participant.new.voters coordinator.new.requests }
    ensures spelled { IfSome result (IsSpelledDue tx) }
    ensures shards { (participant.new.shard ≡ participant.old.shard) × (coordinator.new.shard ≡ coordinator.old.shard) }
{
    let stage = transactions.stage_of(tx);
    let commit = transactions.commit_of(tx);
    if is_landed(stage, commit, transactions.durable()) {
        return Some(Due::Commit);
    }
    if participant.home_of(tx).is_none()
        && coordinator.rests(tx, waits(stage, commit), is_doomed(stage))
    {
        return None;
    }
    let facts = transactions.facts(tx, prepares.get(tx));
    find_due(tx, &facts, participant, coordinator)
}
