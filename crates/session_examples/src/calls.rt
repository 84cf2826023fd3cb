// Any call of a session, as a value.
ghost use Rattle.std.specs.Prelude.{◌≡◌, ◌<◌, ◌^◌};
ghost use Rattle.session_api.specs.Savepoints.{Saved};
ghost use Rattle.session_api.specs.Sessions.{IsSession};
ghost use Rattle.session_examples.specs.Later.{IsLater};
ghost use Rattle.session_examples.specs.Calls.{Called};

use clv_base::lists::Pairs;
use clv_base::names::TxId;
use clv_base::values::Value;
use io_model::Pace;
use machine_calls::Flier;
use session_api::{
    AbortError, BeginError, CommitError, OpError, RetryError, RollError, SaveError, Session,
    Settled,
};
use std::alloc::Global;
use std::sync::Wait;

/// A call of a session.
#[derive(Drop)]
pub enum Call {
    Begin,
    Retry,
    Get { key: u64 },
    Put { key: u64, value: Value },
    Del { key: u64 },
    Add { key: u64, by: u64 },
    Scan { lo: u64, hi: u64 },
    Save,
    Back { upto: u64 },
    Commit,
    Abort,
}

impl Call {
    /// The same call once more. Takes no memory.
    pub fn copy(&self) -> Call
        ensures { result ≡ self.now }
    {
        match self {
            Call::Begin => Call::Begin,
            Call::Retry => Call::Retry,
            Call::Get { key } => Call::Get { key: *key },
            Call::Put { key, value } => Call::Put {
                key: *key,
                value: value.copy(),
            },
            Call::Del { key } => Call::Del { key: *key },
            Call::Add { key, by } => Call::Add { key: *key, by: *by },
            Call::Scan { lo, hi } => Call::Scan { lo: *lo, hi: *hi },
            Call::Save => Call::Save,
            Call::Back { upto } => Call::Back { upto: *upto },
            Call::Commit => Call::Commit,
            Call::Abort => Call::Abort,
        }
    }
}

/// What a call was answered.
#[derive(Drop)]
pub enum Said {
    Begun(Result<TxId, BeginError>),
    Retried(Result<TxId, RetryError>),
    Value(Result<Option<Value>, OpError>),
    Added(Result<bool, OpError>),
    Pairs(Result<Pairs, OpError>),
    Kept(Result<u64, SaveError>),
    Rolled(Result<(), RollError>),
    Settled(Result<Settled, CommitError>),
    Aborted(Result<(), AbortError>),
}

// The upper end of a range is a number of 64 bits.
fn bound(key: u64) -> u64
    ensures same { result ≡ key }
    ensures small { key < 2 ^ 64 }
{
    key
}

/// Makes a call of a session, however its last transaction stands, and gives what that was answered.
pub fn make_call<M: Flier, P: Pace, R: Wait>(
    alloc: Global,
    session: &mut Session<'_, M, P, R>,
    call: Call,
) -> Said
    requires session { IsSession session.old.shards.now session.old.walker session.old.progress }
    requires saved { Saved session.old.progress session.old.saves.items }
    ensures session { IsSession session.new.shards.now session.new.walker session.new.progress }
    ensures saved { Saved session.new.progress session.new.saves.items }
    ensures shards { session.new.shards ≡ session.old.shards }
    ensures later { IsLater session.old.walker session.new.walker }
    ensures told { Called session.old.shards.now session.old.walker session.old.progress session.old.saves.items call result session.new.walker session.new.progress session.new.saves.items }
{
    match call {
        Call::Begin => Said::Begun(session.begin(alloc)),
        Call::Retry => Said::Retried(session.retry(alloc)),
        Call::Get { key } => Said::Value(session.get(alloc, key)),
        Call::Put { key, value } => Said::Value(session.put(alloc, key, value)),
        Call::Del { key } => Said::Value(session.del(alloc, key)),
        Call::Add { key, by } => Said::Added(session.add(alloc, key, by)),
        Call::Scan { lo, hi } => Said::Pairs(session.scan(alloc, lo, bound(hi))),
        Call::Save => Said::Kept(session.savepoint()),
        Call::Back { upto } => Said::Rolled(session.roll_to(alloc, upto)),
        Call::Commit => Said::Settled(session.commit(alloc)),
        Call::Abort => Said::Aborted(session.abort(alloc)),
    }
}
