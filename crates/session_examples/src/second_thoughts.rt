// A put that is taken back.
ghost use Rattle.std.specs.Prelude.{◌≡◌, ◌++◌, ◌∷◌, [], List, Option, Result, Some, None, Ok, true, false, IfOk};
ghost use Rattle.clv_base.specs.declared.values.Value.{Value as ValueType};
ghost use Rattle.clv_base.specs.declared.values.Value.TheVariants.{Num};
ghost use Rattle.session_ops.specs.declared.rolling.BackError.{BackError as BackFailure};
ghost use Rattle.session_books.specs.Done.{Done, WentBack};
ghost use Rattle.script_runs.specs.Acts.{stands_above, written_by};
ghost use Rattle.session_api.specs.Progresses.{active_tx, acts_in, back_told};
ghost use Rattle.session_api.specs.Savepoints.{Saved};
ghost use Rattle.session_api.specs.GoingBack.{has_number};
ghost use Rattle.session_api.specs.Sessions.{IsSession};
ghost use Rattle.session_examples.specs.Later.{IsLater};
ghost use Rattle.session_examples.specs.Ends.{is_open, back_end, GoesOnAs, TriedAs};
ghost use Rattle.session_examples.specs.Moves.{Acknowledges, IsFresh, Doing, HasAcknowledged, HasLast};
ghost use Rattle.session_examples.specs.SecondThoughts.{put_taken_back, TakenBackIsAsBefore};

use crate::transfers::{Failure, Stop, Transferred, begin, commit, finish, write};
use io_model::Pace;
use machine_calls::Flier;
use session_api::{RollError, SaveError, Session};
use std::alloc::Global;
use std::sync::Wait;

// To one of the savepoints of the active transaction.
fn gone_back(answer: Result<(), RollError>) -> Result<(), Failure>
    requires made { (e : Result Unit BackFailure) × (answer ≡ back_told e) }
    ensures told { (e : Result Unit BackFailure) → answer ≡ back_told e → result ≡ back_end e }
{
    match answer {
        Ok(()) => Ok(()),
        Err(RollError::Aborted(cause)) => Err(Failure::Aborted(cause)),
        Err(RollError::Down { shard }) => Err(Failure::Stopped(Stop::Down { shard })),
        Err(RollError::Worn { at }) => Err(Failure::Stopped(Stop::Worn { at })),
        Err(RollError::NoTx) => unreachable!(),
        Err(RollError::NotSaved { .. }) => unreachable!(),
    }
}

// Keeps a savepoint of the active transaction.
fn keep<M: Flier, P: Pace, R: Wait>(session: &mut Session<'_, M, P, R>) -> Result<u64, Failure>
    requires session { IsSession session.old.shards.now session.old.walker session.old.progress }
    requires saved { Saved session.old.progress session.old.saves.items }
    requires open { is_open session.old.progress ≡ true }
    ensures session { IsSession session.new.shards.now session.new.walker session.new.progress }
    ensures saved { Saved session.new.progress session.new.saves.items }
    ensures rest { (session.new.shards ≡ session.old.shards) × (session.new.walker ≡ session.old.walker) × (session.new.progress ≡ session.old.progress) }
    ensures goes { GoesOnAs result session.new.progress }
    ensures kept { IfOk result (λ upto. (acts_in session.old.progress ≡ Some upto) × (has_number upto session.new.saves.items ≡ true)) }
{
    match session.savepoint() {
        Ok(upto) => Ok(upto),
        Err(SaveError::Memory) => Err(Failure::Stopped(Stop::Memory)),
        Err(SaveError::NoTx) => unreachable!(),
    }
}

// The active transaction goes back to one of its savepoints.
fn go_back<M: Flier, P: Pace, R: Wait>(
    alloc: Global,
    session: &mut Session<'_, M, P, R>,
    upto: u64,
) -> Result<(), Failure>
    requires session { IsSession session.old.shards.now session.old.walker session.old.progress }
    requires saved { Saved session.old.progress session.old.saves.items }
    requires open { is_open session.old.progress ≡ true }
    requires kept { has_number upto session.old.saves.items ≡ true }
    ensures session { IsSession session.new.shards.now session.new.walker session.new.progress }
    ensures saved { Saved session.new.progress session.new.saves.items }
    ensures shards { session.new.shards ≡ session.old.shards }
    ensures later { IsLater session.old.walker session.new.walker }
    ensures goes { GoesOnAs result session.new.progress }
    ensures done { (w : _) (acts : List Done) → Doing session.old.shards.now w session.old.walker session.old.progress acts → stands_above upto (written_by session.old.shards.now.splits acts) ≡ true → IfOk result (λ u. Doing session.old.shards.now w session.new.walker session.new.progress (acts ++ WentBack upto ∷ [])) }
{
    let answer = session.roll_to(alloc, upto);
    gone_back(answer)
}

// One try: the active transaction has done nothing before it.
fn attempt<M: Flier, P: Pace, R: Wait>(
    alloc: Global,
    session: &mut Session<'_, M, P, R>,
    key: u64,
    value: u64,
) -> Result<(), Failure>
    requires session { IsSession session.old.shards.now session.old.walker session.old.progress }
    requires saved { Saved session.old.progress session.old.saves.items }
    requires fresh { IsFresh session.old.shards.now session.old.walker session.old.progress }
    ensures session { IsSession session.new.shards.now session.new.walker session.new.progress }
    ensures saved { Saved session.new.progress session.new.saves.items }
    ensures shards { session.new.shards ≡ session.old.shards }
    ensures later { IsLater session.old.walker session.new.walker }
    ensures tried { TriedAs result session.new.progress }
    ensures went_back { IfOk result (λ u. (before : Option ValueType) × HasAcknowledged session.old.shards.now (put_taken_back key (Num value) before) session.old.walker session.new.walker) }
{
    let upto = keep(session)?;
    write(alloc, session, key, value)?;
    go_back(alloc, session, upto)?;
    commit(alloc, session)
}

/// Puts a number at a key behind a savepoint, goes back to it, and commits, in one try. It says whether that is acknowledged; else it was aborted.
///
/// `Ok(true)` comes only where the last entries that the session has made are the put, the going back, the request, and the look that was told of its
/// acknowledgement. So the serial history has these acts, behind which the map is as before them (`taken_back_is_as_before`), and who reads the key behind
/// them finds what the put was answered.
pub fn put_and_go_back<M: Flier, P: Pace, R: Wait>(
    alloc: Global,
    session: &mut Session<'_, M, P, R>,
    key: u64,
    value: u64,
) -> Result<bool, Stop>
    requires session { IsSession session.old.shards.now session.old.walker session.old.progress }
    requires saved { Saved session.old.progress session.old.saves.items }
    requires idle { active_tx session.old.progress ≡ None }
    ensures session { IsSession session.new.shards.now session.new.walker session.new.progress }
    ensures saved { Saved session.new.progress session.new.saves.items }
    ensures shards { session.new.shards ≡ session.old.shards }
    ensures later { IsLater session.old.walker session.new.walker }
    ensures closed { is_open session.new.progress ≡ false }
    ensures went_back { result ≡ Ok true → (before : Option ValueType) × HasLast (Acknowledges session.old.shards.now.splits (put_taken_back key (Num value) before)) session.old.walker session.new.walker }
{
    begin(alloc, session)?;
    let tried = attempt(alloc, session, key, value);
    match finish(alloc, session, tried) {
        Ok(Transferred::Moved) => Ok(true),
        Ok(_) => Ok(false),
        Err(stop) => Err(stop),
    }
}

/// Behind a put that is taken back the map is as before it.
pub fn taken_back_is_as_before()
    ensures { TakenBackIsAsBefore }
{}
