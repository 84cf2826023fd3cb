//! A session looks how its request was decided.
ghost use Rattle.std.specs.Prelude.{◌≡◌, None};
ghost use Rattle.clv_base.specs.declared.events.Outcome.TheVariants.{Acknowledged, Aborted};
ghost use Rattle.shard_machine.specs.declared.happening.Happened.TheVariants.{Done};
ghost use Rattle.shard_core.specs.Whole.{IsAtRest};
ghost use Rattle.machine_laws.specs.Frame.{look_by, look_unknown};
ghost use Rattle.shard_machine.specs.Happening.{Happens};

use crate::happening::Happened;
use clv_base::causes::AbortCause;
use clv_base::events::Outcome;
use clv_base::names::TxId;
use clv_base::state::RequestState;
use lock_table::Locks;
use ordered_store::Store;
use shard_core::ShardCore;

fn acknowledged() -> Happened
    ensures { result ≡ Done Acknowledged Acknowledged }
{
    Happened::Done {
        outcome: Outcome::Acknowledged,
        copy: Outcome::Acknowledged,
    }
}

fn aborted(cause: AbortCause) -> Happened
    ensures { result ≡ Done (Aborted cause) (Aborted cause) }
{
    Happened::Done {
        outcome: Outcome::Aborted(cause),
        copy: Outcome::Aborted(cause),
    }
}

/// A request that isn't known, by the epoch that it named first.
fn look_lost<S: Store + Drop, L: Locks + Drop>(
    core: &ShardCore<S, L>,
    tx: TxId,
    named: Option<u64>,
) -> Happened
    requires { IsAtRest core.now }
    ensures { Happens (look_unknown core.now.shard tx named None) core.now.shard result core.now.shard }
{
    core.settled();
    if core.is_committed(tx) {
        return Happened::Quiet(Outcome::NotYet);
    }
    let Some(seen) = named else {
        return Happened::Quiet(Outcome::NotYet);
    };
    let now = core.epoch();
    if seen == now {
        return Happened::Quiet(Outcome::NotYet);
    }
    aborted(AbortCause::Restarted {
        shard: core.number(),
        seen,
        now,
    })
}

/// A look; `named` is the epoch of this shard that the transaction's request named first, if the journal has one. It changes nothing.
pub fn look<S: Store + Drop, L: Locks + Drop>(
    core: &ShardCore<S, L>,
    tx: TxId,
    named: Option<u64>,
) -> Happened
    requires { IsAtRest core.now }
    ensures { Happens (look_by core.now.shard tx named) core.now.shard result core.now.shard }
{
    core.settled();
    if core.has_durable_commit(tx) {
        return acknowledged();
    }
    match core.request_state(tx) {
        Some(RequestState::Undecided) => Happened::Quiet(Outcome::NotYet),
        Some(RequestState::Committed { parts: _ }) => Happened::Quiet(Outcome::NotYet),
        Some(RequestState::Finished) => acknowledged(),
        Some(RequestState::Refused { cause }) => aborted(cause),
        None => look_lost(core, tx, named),
    }
}
