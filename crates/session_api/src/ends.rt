// What a session's answers are to a try.
ghost use Rattle.std.specs.Prelude.{◌≡◌, ◌≢◌, ℕ, Bool, List, Option, Result, Err};
ghost use Rattle.clv_base.specs.declared.names.TxId.{TxId as TxIdIs};
ghost use Rattle.clv_base.specs.declared.values.Value.{Value as ValueType};
ghost use Rattle.cluster_turns.specs.declared.shards.WornClock.{WornClock};
ghost use Rattle.session_ops.specs.declared.operating.OpError.{OpError as Failure};
ghost use Rattle.session_ops.specs.declared.rolling.BackError.{BackError as BackFailure};
ghost use Rattle.session_ops.specs.declared.committing.Settled.{Settled as SettledIs};
ghost use Rattle.session_ops.specs.declared.committing.CommitError.{CommitError as CommitFailure};
ghost use Rattle.session_api.specs.Progresses.{failure_told, answer_told, back_told, commit_told, abort_told};
ghost use Rattle.session_api.specs.Seeing.{asked_after, op_end, value_end, added_end, pairs_end, back_end, commit_end, abort_end};
ghost use Rattle.session_api.specs.Ends.{BeginEnds, RetryEnds};

use crate::{AbortError, BeginError, CommitError, OpError, RetryError, RollError, Settled};
use cluster_turns::Shards;
use clv_base::lists::Pairs;
use clv_base::names::{Point, TxId};
use clv_base::ops::Answer;
use clv_base::values::Value;
use machine_calls::Machine;
use script_runs::{StopCause, TryEnd};

// None is active.
pub(crate) fn begun(answer: Result<TxId, BeginError>) -> Result<(), StopCause>
    requires idle { (tx : TxIdIs) → answer ≢ Err (BeginError.Active tx) }
    ensures { BeginEnds answer result }
{
    match answer {
        Ok(_tx) => Ok(()),
        Err(BeginError::Worn { at }) => Err(StopCause::Worn { at }),
        Err(BeginError::Active { .. }) => unreachable!(),
    }
}

// The last one ended by an abort.
pub(crate) fn retried(answer: Result<TxId, RetryError>) -> Result<(), StopCause>
    requires idle { (tx : TxIdIs) → answer ≢ Err (RetryError.Active tx) }
    requires ended { answer ≢ Err RetryError.NoRetry }
    ensures { RetryEnds answer result }
{
    match answer {
        Ok(_tx) => Ok(()),
        Err(RetryError::Worn { at }) => Err(StopCause::Worn { at }),
        Err(RetryError::Active { .. }) => unreachable!(),
        Err(RetryError::NoRetry) => unreachable!(),
    }
}

// An operation of this walker that was made has failed: no further one follows at once. Want of memory is told to all sessions.
fn failed<M: Machine>(shards: &Shards<M>, walker: u32, error: OpError) -> TryEnd
    requires made { (e : Failure) × (error ≡ failure_told e) }
    ensures told { (e : Failure) → error ≡ failure_told e → result ≡ op_end e }
{
    shards.go_out(walker);
    match error {
        OpError::Aborted(cause) => TryEnd::Aborted(cause),
        OpError::Down { shard } => TryEnd::Stopped(StopCause::Down { shard }),
        OpError::Worn { at } => TryEnd::Stopped(StopCause::Worn { at }),
        OpError::Memory => {
            shards.tell_lack();
            TryEnd::Stopped(StopCause::Memory)
        }
        OpError::NoTx => unreachable!(),
        OpError::BadRange { .. } => unreachable!(),
    }
}

// An operation at a key was made.
pub(crate) fn value_told<M: Machine>(
    shards: &Shards<M>,
    walker: u32,
    answer: Result<Option<Value>, OpError>,
) -> Result<Answer, TryEnd>
    requires made { (e : Result (Option ValueType) Failure) × (answer ≡ answer_told e) }
    ensures told { (e : Result (Option ValueType) Failure) → answer ≡ answer_told e → result ≡ value_end e }
{
    match answer {
        Ok(value) => Ok(Answer::Value(value)),
        Err(error) => Err(failed(shards, walker, error)),
    }
}

// An addition was made.
pub(crate) fn added_told<M: Machine>(
    shards: &Shards<M>,
    walker: u32,
    answer: Result<bool, OpError>,
) -> Result<Answer, TryEnd>
    requires made { (e : Result Bool Failure) × (answer ≡ answer_told e) }
    ensures told { (e : Result Bool Failure) → answer ≡ answer_told e → result ≡ added_end e }
{
    match answer {
        Ok(found) => Ok(Answer::Added(found)),
        Err(error) => Err(failed(shards, walker, error)),
    }
}

// A scan was made.
pub(crate) fn pairs_told<M: Machine>(
    shards: &Shards<M>,
    walker: u32,
    answer: Result<Pairs, OpError>,
) -> Result<Answer, TryEnd>
    requires made { (e : Result (List (ℕ × ValueType)) Failure) × (answer ≡ answer_told e) }
    ensures told { (e : Result (List (ℕ × ValueType)) Failure) → answer ≡ answer_told e → result ≡ pairs_end e }
{
    match answer {
        Ok(pairs) => Ok(Answer::Pairs(pairs)),
        Err(error) => Err(failed(shards, walker, error)),
    }
}

// A going back to after so many acts was made, which took a number or none.
pub(crate) fn gone_back<M: Machine>(
    shards: &Shards<M>,
    walker: u32,
    upto: u64,
    took: bool,
    answer: Result<(), RollError>,
) -> Result<Option<u64>, TryEnd>
    requires made { (e : Result Unit BackFailure) × (answer ≡ back_told e) }
    ensures told { (e : Result Unit BackFailure) → answer ≡ back_told e → result ≡ back_end took upto e }
{
    match answer {
        Ok(()) => Ok(if took { Some(upto) } else { None }),
        Err(error) => {
            shards.go_out(walker);
            Err(match error {
                RollError::Aborted(cause) => TryEnd::Aborted(cause),
                RollError::Down { shard } => TryEnd::Stopped(StopCause::Down { shard }),
                RollError::Worn { at } => TryEnd::Stopped(StopCause::Worn { at }),
                RollError::NoTx => unreachable!(),
                RollError::NotSaved { .. } => unreachable!(),
            })
        }
    }
}

// A commit was made. Want of memory is told to all sessions, and so is a request that was left standing.
pub(crate) fn committed<M: Machine>(
    shards: &Shards<M>,
    walker: u32,
    answer: Result<Settled, CommitError>,
) -> TryEnd
    requires made { (e : Result SettledIs CommitFailure) × (answer ≡ commit_told e) }
    ensures told { (e : Result SettledIs CommitFailure) → answer ≡ commit_told e → result ≡ commit_end e }
{
    shards.go_out(walker);
    match answer {
        Ok(Settled::Committed { .. }) => TryEnd::Acknowledged,
        Ok(Settled::Empty) => TryEnd::Empty,
        Err(CommitError::Aborted(cause)) => TryEnd::Aborted(cause),
        Err(CommitError::Down { shard }) => TryEnd::Stopped(StopCause::Down { shard }),
        Err(CommitError::Unsettled { shard }) => {
            shards.tell_left();
            TryEnd::Stopped(StopCause::Unsettled { shard })
        }
        Err(CommitError::Worn { at }) => TryEnd::Stopped(StopCause::Worn { at }),
        Err(CommitError::Memory) => {
            shards.tell_lack();
            TryEnd::Stopped(StopCause::Memory)
        }
        Err(CommitError::NoTx) => unreachable!(),
    }
}

// The point of the last request that was acknowledged, after a commit.
pub(crate) fn last_asked(asked: Point, answer: Result<Settled, CommitError>) -> Point
    ensures { result ≡ asked_after asked answer }
{
    match answer {
        Ok(Settled::Committed { point }) => point,
        _ => asked,
    }
}

// An abort was made.
pub(crate) fn aborted<M: Machine>(
    shards: &Shards<M>,
    walker: u32,
    answer: Result<(), AbortError>,
) -> Result<(), StopCause>
    requires made { (e : Result Unit WornClock) × (answer ≡ abort_told e) }
    ensures told { (e : Result Unit WornClock) → answer ≡ abort_told e → result ≡ abort_end e }
{
    shards.go_out(walker);
    match answer {
        Ok(()) => Ok(()),
        Err(AbortError::Worn { at }) => Err(StopCause::Worn { at }),
        Err(AbortError::NoTx) => unreachable!(),
    }
}
