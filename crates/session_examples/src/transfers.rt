// A transfer between two keys.
ghost use Rattle.std.specs.Prelude.{◌≡◌, ◌≢◌, ◌≤◌, ◌-◌, ◌+◌, ◌++◌, ◌∷◌, [], ℕ, List, length, Option, Result, Some, None, Ok, Err, true, false, IfOk, IfErr};
ghost use Rattle.clv_base.specs.declared.names.TxId.{TxId as TxIdIs};
ghost use Rattle.clv_base.specs.declared.values.Value.{Value as ValueType};
ghost use Rattle.clv_base.specs.declared.values.Value.TheVariants.{Num};
ghost use Rattle.clv_base.specs.declared.ops.Op.TheVariants.{Get, Put};
ghost use Rattle.clv_base.specs.declared.ops.Answer.TheVariants.{Value as Told};
ghost use Rattle.session_ops.specs.declared.operating.OpError.{OpError as OpFailure};
ghost use Rattle.session_ops.specs.declared.committing.Settled.{Settled as SettledIs};
ghost use Rattle.session_ops.specs.declared.committing.CommitError.{CommitError as CommitFailure};
ghost use Rattle.session_api.specs.Progresses.{active_tx, failure_told, answer_told, commit_told};
ghost use Rattle.session_api.specs.Savepoints.{Saved};
ghost use Rattle.session_api.specs.Sessions.{IsSession};
ghost use Rattle.session_books.specs.Done.{Done, Did};
ghost use Rattle.session_examples.specs.Later.{IsLater};
ghost use Rattle.session_examples.specs.Ends.{is_open, has_ended, failure_end, value_end, written_end, commit_end, BeginEnds, RetryEnds, AbortEnds, GoesOnAs, TriedAs, EndsAs};
ghost use Rattle.session_examples.specs.Moves.{IsFresh, Doing, HasAcknowledged, IsPlanned, HasMoved, MovesAs};

use clv_base::causes::AbortCause;
use clv_base::names::TxId;
use clv_base::values::Value;
use io_model::Pace;
use machine_calls::Flier;
use session_api::{AbortError, BeginError, CommitError, OpError, RetryError, Session, Settled};
use std::alloc::Global;
use std::sync::Wait;

/// Why nothing is to be moved.
#[derive(Clone, Copy, PartialEq, Eq)]
pub enum Refusal {
    /// There is no number at this key.
    Missing { key: u64 },
    /// The one holds only this.
    Overdrawn { holds: u64 },
    /// The other one holds this, and can't hold so much more.
    Full { holds: u64 },
}

/// How a transfer went.
#[derive(Clone, Copy, PartialEq, Eq)]
pub enum Transferred {
    /// The amount is moved, and that is acknowledged.
    Moved,
    /// Nothing is moved. The transaction was aborted.
    Refused(Refusal),
    /// Each try was aborted, the last one for this cause.
    GivenUp(AbortCause),
}

/// What stopped a transfer.
#[derive(Clone, Copy, PartialEq, Eq)]
pub enum Stop {
    /// The shard was down before the request. The transaction was aborted, unless stamps were wanting for that.
    Down { shard: u32 },
    /// The shard was down while the request stood: it stands still.
    Unsettled { shard: u32 },
    /// Stamps are wanting.
    Worn { at: u64 },
    Memory,
}

// Why a try isn't acknowledged.
#[derive(Clone, Copy)]
pub(crate) enum Failure {
    // The transaction is over.
    Aborted(AbortCause),
    // It is active still.
    Refused(Refusal),
    Stopped(Stop),
}

// An operation that was made has failed.
fn of_op(error: OpError) -> Failure
    requires made { (e : OpFailure) × (error ≡ failure_told e) }
    ensures told { (e : OpFailure) → error ≡ failure_told e → result ≡ failure_end e }
{
    match error {
        OpError::Aborted(cause) => Failure::Aborted(cause),
        OpError::Down { shard } => Failure::Stopped(Stop::Down { shard }),
        OpError::Worn { at } => Failure::Stopped(Stop::Worn { at }),
        OpError::Memory => Failure::Stopped(Stop::Memory),
        OpError::NoTx => unreachable!(),
        OpError::BadRange { .. } => unreachable!(),
    }
}

// A key was read, at which there must be a number.
fn value_at(key: u64, answer: Result<Option<Value>, OpError>) -> Result<u64, Failure>
    requires made { (e : Result (Option ValueType) OpFailure) × (answer ≡ answer_told e) }
    ensures told { (e : Result (Option ValueType) OpFailure) → answer ≡ answer_told e → result ≡ value_end key e }
{
    match answer {
        Ok(Some(Value::Num(number))) => Ok(number),
        Ok(Some(Value::Bytes(_text))) => Err(Failure::Refused(Refusal::Missing { key })),
        Ok(None) => Err(Failure::Refused(Refusal::Missing { key })),
        Err(error) => Err(of_op(error)),
    }
}

fn written(answer: Result<Option<Value>, OpError>) -> Result<(), Failure>
    requires made { (e : Result (Option ValueType) OpFailure) × (answer ≡ answer_told e) }
    ensures told { (e : Result (Option ValueType) OpFailure) → answer ≡ answer_told e → result ≡ written_end e }
{
    match answer {
        Ok(_before) => Ok(()),
        Err(error) => Err(of_op(error)),
    }
}

fn settled(answer: Result<Settled, CommitError>) -> Result<(), Failure>
    requires made { (e : Result SettledIs CommitFailure) × (answer ≡ commit_told e) }
    ensures told { (e : Result SettledIs CommitFailure) → answer ≡ commit_told e → result ≡ commit_end e }
{
    match answer {
        Ok(_settled) => Ok(()),
        Err(CommitError::Aborted(cause)) => Err(Failure::Aborted(cause)),
        Err(CommitError::Down { shard }) => Err(Failure::Stopped(Stop::Down { shard })),
        Err(CommitError::Unsettled { shard }) => Err(Failure::Stopped(Stop::Unsettled { shard })),
        Err(CommitError::Worn { at }) => Err(Failure::Stopped(Stop::Worn { at })),
        Err(CommitError::Memory) => Err(Failure::Stopped(Stop::Memory)),
        Err(CommitError::NoTx) => unreachable!(),
    }
}

// None was active.
fn begun(answer: Result<TxId, BeginError>) -> Result<(), Stop>
    requires idle { (tx : TxIdIs) → answer ≢ Err (BeginError.Active tx) }
    ensures { BeginEnds answer result }
{
    match answer {
        Ok(_tx) => Ok(()),
        Err(BeginError::Worn { at }) => Err(Stop::Worn { at }),
        Err(BeginError::Active { .. }) => unreachable!(),
    }
}

// The last one had ended by an abort.
fn retried(answer: Result<TxId, RetryError>) -> Result<(), Stop>
    requires idle { (tx : TxIdIs) → answer ≢ Err (RetryError.Active tx) }
    requires ended { answer ≢ Err RetryError.NoRetry }
    ensures { RetryEnds answer result }
{
    match answer {
        Ok(_tx) => Ok(()),
        Err(RetryError::Worn { at }) => Err(Stop::Worn { at }),
        Err(RetryError::Active { .. }) => unreachable!(),
        Err(RetryError::NoRetry) => unreachable!(),
    }
}

// There may have been nothing to abort.
fn aborted(answer: Result<(), AbortError>) -> Result<(), Stop>
    ensures { AbortEnds answer result }
{
    match answer {
        Ok(()) => Ok(()),
        Err(AbortError::NoTx) => Ok(()),
        Err(AbortError::Worn { at }) => Err(Stop::Worn { at }),
    }
}

fn less(holds: u64, amount: u64) -> Result<u64, Failure>
    ensures left { IfOk result (λ left. (amount ≤ holds) × (left ≡ holds - amount)) }
    ensures refused { IfErr result (λ e. e ≡ Failure.Refused (Refusal.Overdrawn holds)) }
{
    match holds.checked_sub(amount) {
        Some(left) => Ok(left),
        None => Err(Failure::Refused(Refusal::Overdrawn { holds })),
    }
}

fn more(holds: u64, amount: u64) -> Result<u64, Failure>
    ensures sum { IfOk result (λ sum. sum ≡ holds + amount) }
    ensures refused { IfErr result (λ e. e ≡ Failure.Refused (Refusal.Full holds)) }
{
    match holds.checked_add(amount) {
        Some(sum) => Ok(sum),
        None => Err(Failure::Refused(Refusal::Full { holds })),
    }
}

// The value at a key of the active transaction, which must be there.
fn look<M: Flier, P: Pace, R: Wait>(
    alloc: Global,
    session: &mut Session<'_, M, P, R>,
    key: u64,
) -> Result<u64, Failure>
    requires session { IsSession session.old.shards.now session.old.walker session.old.progress }
    requires saved { Saved session.old.progress session.old.saves.items }
    requires open { is_open session.old.progress ≡ true }
    ensures session { IsSession session.new.shards.now session.new.walker session.new.progress }
    ensures saved { Saved session.new.progress session.new.saves.items }
    ensures shards { session.new.shards ≡ session.old.shards }
    ensures later { IsLater session.old.walker session.new.walker }
    ensures goes { GoesOnAs result session.new.progress }
    ensures done { (w : _) (acts : List Done) → Doing session.old.shards.now w session.old.walker session.old.progress acts → IfOk result (λ value. Doing session.old.shards.now w session.new.walker session.new.progress (acts ++ Did (Get key) (Told (Some (Num value))) ∷ [])) }
{
    let answer = session.get(alloc, key);
    value_at(key, answer)
}

pub(crate) fn write<M: Flier, P: Pace, R: Wait>(
    alloc: Global,
    session: &mut Session<'_, M, P, R>,
    key: u64,
    value: u64,
) -> Result<(), Failure>
    requires session { IsSession session.old.shards.now session.old.walker session.old.progress }
    requires saved { Saved session.old.progress session.old.saves.items }
    requires open { is_open session.old.progress ≡ true }
    ensures session { IsSession session.new.shards.now session.new.walker session.new.progress }
    ensures saved { Saved session.new.progress session.new.saves.items }
    ensures shards { session.new.shards ≡ session.old.shards }
    ensures later { IsLater session.old.walker session.new.walker }
    ensures goes { GoesOnAs result session.new.progress }
    ensures saves { session.new.saves ≡ session.old.saves }
    ensures done { (w : _) (acts : List Done) → Doing session.old.shards.now w session.old.walker session.old.progress acts → IfOk result (λ u. (before : Option ValueType) × Doing session.old.shards.now w session.new.walker session.new.progress (acts ++ Did (Put key (Num value)) (Told before) ∷ [])) }
{
    let answer = session.put(alloc, key, Value::Num(value));
    written(answer)
}

// Reads both keys, and says what they are to hold. The active transaction has made nothing before it.
fn plan<M: Flier, P: Pace, R: Wait>(
    alloc: Global,
    session: &mut Session<'_, M, P, R>,
    from: u64,
    to: u64,
    amount: u64,
) -> Result<(u64, u64), Failure>
    requires session { IsSession session.old.shards.now session.old.walker session.old.progress }
    requires saved { Saved session.old.progress session.old.saves.items }
    requires fresh { IsFresh session.old.shards.now session.old.walker session.old.progress }
    ensures session { IsSession session.new.shards.now session.new.walker session.new.progress }
    ensures saved { Saved session.new.progress session.new.saves.items }
    ensures shards { session.new.shards ≡ session.old.shards }
    ensures later { IsLater session.old.walker session.new.walker }
    ensures goes { GoesOnAs result session.new.progress }
    ensures planned { IfOk result (λ r. IsPlanned session.old.shards.now from to amount session.old.walker r.0 r.1 session.new.walker session.new.progress) }
{
    let holds = look(alloc, session, from)?;
    let other = look(alloc, session, to)?;
    let left = less(holds, amount)?;
    let sum = more(other, amount)?;
    Ok((left, sum))
}

pub(crate) fn commit<M: Flier, P: Pace, R: Wait>(
    alloc: Global,
    session: &mut Session<'_, M, P, R>,
) -> Result<(), Failure>
    requires session { IsSession session.old.shards.now session.old.walker session.old.progress }
    requires saved { Saved session.old.progress session.old.saves.items }
    requires open { is_open session.old.progress ≡ true }
    ensures session { IsSession session.new.shards.now session.new.walker session.new.progress }
    ensures saved { Saved session.new.progress session.new.saves.items }
    ensures shards { session.new.shards ≡ session.old.shards }
    ensures later { IsLater session.old.walker session.new.walker }
    ensures tried { TriedAs result session.new.progress }
    ensures done { (w : _) (acts : List Done) → 1 ≤ length acts → Doing session.old.shards.now w session.old.walker session.old.progress acts → IfOk result (λ u. HasAcknowledged session.old.shards.now acts w session.new.walker) }
{
    let answer = session.commit(alloc);
    settled(answer)
}

// One try: the active transaction has made nothing before it.
fn attempt<M: Flier, P: Pace, R: Wait>(
    alloc: Global,
    session: &mut Session<'_, M, P, R>,
    from: u64,
    to: u64,
    amount: u64,
) -> Result<(), Failure>
    requires session { IsSession session.old.shards.now session.old.walker session.old.progress }
    requires saved { Saved session.old.progress session.old.saves.items }
    requires fresh { IsFresh session.old.shards.now session.old.walker session.old.progress }
    ensures session { IsSession session.new.shards.now session.new.walker session.new.progress }
    ensures saved { Saved session.new.progress session.new.saves.items }
    ensures shards { session.new.shards ≡ session.old.shards }
    ensures later { IsLater session.old.walker session.new.walker }
    ensures tried { TriedAs result session.new.progress }
    ensures moved { IfOk result (λ u. HasMoved session.old.shards.now from to amount session.old.walker session.new.walker) }
{
    let (left, sum) = plan(alloc, session, from, to, amount)?;
    write(alloc, session, from, left)?;
    write(alloc, session, to, sum)?;
    commit(alloc, session)
}

// Aborts the active transaction; where a request stands, or there is nothing to abort, it does nothing.
fn abort<M: Flier, P: Pace, R: Wait>(
    alloc: Global,
    session: &mut Session<'_, M, P, R>,
) -> Result<(), Stop>
    requires session { IsSession session.old.shards.now session.old.walker session.old.progress }
    requires saved { Saved session.old.progress session.old.saves.items }
    ensures session { IsSession session.new.shards.now session.new.walker session.new.progress }
    ensures saved { Saved session.new.progress session.new.saves.items }
    ensures shards { session.new.shards ≡ session.old.shards }
    ensures later { IsLater session.old.walker session.new.walker }
    ensures closed { is_open session.new.progress ≡ false }
    ensures ended { is_open session.old.progress ≡ true → IfOk result (λ u. has_ended session.new.progress ≡ true) }
{
    let answer = session.abort(alloc);
    aborted(answer)
}

// Ends what a try has left open.
pub(crate) fn finish<M: Flier, P: Pace, R: Wait>(
    alloc: Global,
    session: &mut Session<'_, M, P, R>,
    tried: Result<(), Failure>,
) -> Result<Transferred, Stop>
    requires session { IsSession session.old.shards.now session.old.walker session.old.progress }
    requires saved { Saved session.old.progress session.old.saves.items }
    requires tried { TriedAs tried session.old.progress }
    ensures session { IsSession session.new.shards.now session.new.walker session.new.progress }
    ensures saved { Saved session.new.progress session.new.saves.items }
    ensures shards { session.new.shards ≡ session.old.shards }
    ensures later { IsLater session.old.walker session.new.walker }
    ensures closed { is_open session.new.progress ≡ false }
    ensures ends { EndsAs result session.new.progress }
    ensures moved { result ≡ Ok Transferred.Moved → (tried ≡ Ok tt) × (session.new.walker ≡ session.old.walker) }
{
    match tried {
        Ok(()) => Ok(Transferred::Moved),
        Err(Failure::Aborted(cause)) => Ok(Transferred::GivenUp(cause)),
        Err(Failure::Refused(why)) => match abort(alloc, session) {
            Ok(()) => Ok(Transferred::Refused(why)),
            Err(stop) => Err(stop),
        },
        Err(Failure::Stopped(stop)) => {
            let _aborted = abort(alloc, session);
            Err(stop)
        }
    }
}

pub(crate) fn begin<M: Flier, P: Pace, R: Wait>(
    alloc: Global,
    session: &mut Session<'_, M, P, R>,
) -> Result<(), Stop>
    requires session { IsSession session.old.shards.now session.old.walker session.old.progress }
    requires saved { Saved session.old.progress session.old.saves.items }
    requires idle { active_tx session.old.progress ≡ None }
    ensures session { IsSession session.new.shards.now session.new.walker session.new.progress }
    ensures saved { Saved session.new.progress session.new.saves.items }
    ensures shards { session.new.shards ≡ session.old.shards }
    ensures later { IsLater session.old.walker session.new.walker }
    ensures fresh { IfOk result (λ u. IsFresh session.old.shards.now session.new.walker session.new.progress) }
    ensures closed { IfErr result (λ stop. is_open session.new.progress ≡ false) }
{
    let answer = session.begin(alloc);
    begun(answer)
}

fn retry<M: Flier, P: Pace, R: Wait>(
    alloc: Global,
    session: &mut Session<'_, M, P, R>,
) -> Result<(), Stop>
    requires session { IsSession session.old.shards.now session.old.walker session.old.progress }
    requires saved { Saved session.old.progress session.old.saves.items }
    requires ended { has_ended session.old.progress ≡ true }
    ensures session { IsSession session.new.shards.now session.new.walker session.new.progress }
    ensures saved { Saved session.new.progress session.new.saves.items }
    ensures shards { session.new.shards ≡ session.old.shards }
    ensures later { IsLater session.old.walker session.new.walker }
    ensures fresh { IfOk result (λ u. IsFresh session.old.shards.now session.new.walker session.new.progress) }
    ensures closed { IfErr result (λ stop. is_open session.new.progress ≡ false) }
{
    let answer = session.retry(alloc);
    retried(answer)
}

// The tries of the active transaction, which has made nothing so far.
fn run_tries<M: Flier, P: Pace, R: Wait>(
    alloc: Global,
    session: &mut Session<'_, M, P, R>,
    from: u64,
    to: u64,
    amount: u64,
    tries: u32,
) -> Result<Transferred, Stop>
    requires session { IsSession session.old.shards.now session.old.walker session.old.progress }
    requires saved { Saved session.old.progress session.old.saves.items }
    requires fresh { IsFresh session.old.shards.now session.old.walker session.old.progress }
    ensures session { IsSession session.new.shards.now session.new.walker session.new.progress }
    ensures saved { Saved session.new.progress session.new.saves.items }
    ensures shards { session.new.shards ≡ session.old.shards }
    ensures later { IsLater session.old.walker session.new.walker }
    ensures closed { is_open session.new.progress ≡ false }
    ensures ends { EndsAs result session.new.progress }
    ensures moved { MovesAs session.old.shards.now from to amount result session.old.walker session.new.walker }
{
    for _again in 1..tries {
        match attempt(alloc, session, from, to, amount) {
            Err(Failure::Aborted(_)) => match retry(alloc, session) {
                Ok(()) => {}
                Err(stop) => return Err(stop),
            },
            tried => return finish(alloc, session, tried),
        }
    }
    let tried = attempt(alloc, session, from, to, amount);
    finish(alloc, session, tried)
}

/// Moves an amount from one key to another, in one transaction: reads both, writes both, and commits. Where it is aborted, as it dies by
/// an older one, it is tried again with its birth, at most so many times in all, and once at least.
///
/// After it no transaction may have operations, and the session may go on. `Moved` comes only where the last entries that the session has
/// made are both reads, of which the first found enough, both writes of what is to be there, the request, and the look that was told of
/// its acknowledgement. `Refused` and `GivenUp` come only where the last try was aborted. After `Unsettled`, and after `Memory` behind
/// the request, this stands; after `Worn` stamps may be wanting even for an abort.
pub fn transfer<M: Flier, P: Pace, R: Wait>(
    alloc: Global,
    session: &mut Session<'_, M, P, R>,
    from: u64,
    to: u64,
    amount: u64,
    tries: u32,
) -> Result<Transferred, Stop>
    requires session { IsSession session.old.shards.now session.old.walker session.old.progress }
    requires saved { Saved session.old.progress session.old.saves.items }
    requires idle { active_tx session.old.progress ≡ None }
    requires apart { from ≢ to }
    ensures session { IsSession session.new.shards.now session.new.walker session.new.progress }
    ensures saved { Saved session.new.progress session.new.saves.items }
    ensures shards { session.new.shards ≡ session.old.shards }
    ensures later { IsLater session.old.walker session.new.walker }
    ensures closed { is_open session.new.progress ≡ false }
    ensures ends { EndsAs result session.new.progress }
    ensures moved { MovesAs session.old.shards.now from to amount result session.old.walker session.new.walker }
{
    match begin(alloc, session) {
        Ok(()) => run_tries(alloc, session, from, to, amount, tries),
        Err(stop) => Err(stop),
    }
}
