//! A request that touched its home alone.
ghost use Rattle.std.specs.Prelude.{◌≡◌, [], None, IfSome};
ghost use Rattle.clv_base.specs.declared.state.RequestState.TheVariants.{Undecided};
ghost use Rattle.clv_base.specs.Coordinator.{new_request, agreed_ruling, cause_by, ruling_by};
ghost use Rattle.two_phase_commit.specs.Coordinated.{ruled};
ghost use Rattle.two_phase_commit.specs.Kept.{alone_in, state_at, request_of, refused_alone, IsPlaced};

use crate::form::{Form, Stage};
use crate::ruling::is_waiting;
use crate::voting::has_durable_predecessors;
use clv_base::causes::AbortCause;
use clv_base::names::TxId;
use clv_base::parts::{PartFacts, ShardList};
use clv_base::state::{RequestState, Ruling};

/// A request of one shard that nothing is ruled of, where these are one.
pub(crate) fn alone(touched: &[(u32, u64)]) -> Option<Form>
    ensures request { IfSome result (λ form. request_of form ≡ new_request touched.now Undecided) }
    ensures placed { IfSome result IsPlaced }
{
    match touched {
        [part] => Some(Form::Alone {
            shard: part.0,
            epoch: part.1,
            stage: Stage::Undecided,
        }),
        _ => None,
    }
}

/// How far it is.
pub(crate) fn state_of(stage: Stage) -> RequestState
    ensures { result ≡ state_at stage }
{
    match stage {
        Stage::Undecided => RequestState::Undecided,
        Stage::Committed => RequestState::Committed {
            parts: ShardList::new(),
        },
        Stage::Finished => RequestState::Finished,
        Stage::Asked => RequestState::Refused {
            cause: AbortCause::Asked,
        },
    }
}

/// What is ruled where the part agrees, and the request after it.
fn rule_agreed(shard: u32, epoch: u64, facts: &PartFacts) -> (Form, Option<Ruling>)
    ensures ruling { result.1 ≡ agreed_ruling facts.entry.now (facts.entry.now).updates [] }
    ensures request { request_of result.0 ≡ ruled result.1 (alone_in shard epoch Undecided) }
    ensures placed { IsPlaced result.0 }
{
    if facts.updates {
        let parts = ShardList::new();
        (
            Form::Alone {
                shard,
                epoch,
                stage: Stage::Committed,
            },
            Some(Ruling::Commit { parts }),
        )
    } else if has_durable_predecessors(facts) {
        (
            Form::Alone {
                shard,
                epoch,
                stage: Stage::Finished,
            },
            Some(Ruling::Acknowledge),
        )
    } else {
        (
            Form::Alone {
                shard,
                epoch,
                stage: Stage::Undecided,
            },
            None,
        )
    }
}

/// What is ruled where the part doesn't agree, by its doom, and the request after it.
fn rule_refused(shard: u32, epoch: u64, tx: TxId, doom: Option<TxId>) -> (Form, Option<Ruling>)
    ensures ruling { result.1 ≡ refused_alone (cause_by tx None doom) }
    ensures request { request_of result.0 ≡ ruled result.1 (alone_in shard epoch Undecided) }
    ensures placed { IsPlaced result.0 }
{
    let to = ShardList::new();
    match doom {
        None => (
            Form::Alone {
                shard,
                epoch,
                stage: Stage::Undecided,
            },
            None,
        ),
        Some(doom) if tx == doom => (
            Form::Alone {
                shard,
                epoch,
                stage: Stage::Asked,
            },
            Some(Ruling::Abort {
                cause: AbortCause::Asked,
                to,
            }),
        ),
        Some(doom) => (
            Form::Lost {
                shard,
                epoch,
                to: doom,
            },
            Some(Ruling::Abort {
                cause: AbortCause::Predecessor { tx: doom },
                to,
            }),
        ),
    }
}

/// What is ruled of a request of one shard that is undecided, and the request after it.
pub(crate) fn rule_alone(
    shard: u32,
    epoch: u64,
    tx: TxId,
    facts: &PartFacts,
) -> (Form, Option<Ruling>)
    ensures ruling { result.1 ≡ ruling_by shard tx (alone_in shard epoch Undecided) facts.entry.now }
    ensures request { request_of result.0 ≡ ruled result.1 (alone_in shard epoch Undecided) }
    ensures placed { IsPlaced result.0 }
{
    if is_waiting(facts) && facts.undecided == 0 {
        rule_agreed(shard, epoch, facts)
    } else {
        rule_refused(shard, epoch, tx, facts.doom)
    }
}
