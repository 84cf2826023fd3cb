// What a session's calls promise to whoever runs a script.
ghost use Rattle.std.specs.Prelude.{◌≡◌, ℕ, Bool, Option, Some, is_some, IfErr, IfOk, OnOk, true, suc};
ghost use Rattle.clv_base.specs.declared.names.TxId.{TxId};
ghost use Rattle.clv_base.specs.declared.names.Birth.{Birth as BirthIs};
ghost use Rattle.clv_base.specs.Journals.{History};
ghost use Rattle.script_runs.specs.declared.ends.StopCause.{StopCause as CauseIs};
ghost use Rattle.script_runs.specs.declared.ends.StopCause.TheVariants.{Memory};
ghost use Rattle.script_lang.specs.Savepoints.{upto_of};
ghost use Rattle.session_books.specs.Done.{Did};
ghost use Rattle.script_runs.specs.Seen.{Standing, Idle, Active, Seen as SeenIs, Keeps, IsStage, raised, Going, going_at_start, going_on, going_saved, going_back_to};
ghost use Rattle.script_runs.specs.Told.{has_range, BeginTold, RetryTold, OperateTold, BackTold, CommitTold, AbortTold};
ghost use Rattle.script_runs.specs.Tried.{OnStop, OnRefusal};

use crate::{Memory, StopCause, TryEnd};
use clv_base::names::{Point, TxId};
use clv_base::ops::{Answer, Op};
use std::alloc::Global;

/// How far a session's last transaction is: none is active; it is active, and touched a shard or none; or its request stands without an answer.
#[derive(Clone, Copy)]
pub enum Stage {
    Idle,
    Active { touched: bool },
    Asked,
}

/// A session of a store. What its calls add to its entries is told by their answers, in the words of tries.
pub trait SessionCalls {
    /// What a session stands on, which none of its calls changes.
    type Base;

    ghost base: { Self → Self.Base };

    ghost seen: { Self → SeenIs };

    /// What the active transaction may go back over: its savepoints, and its writes that stand. None where a going back was left undone, or there is no
    /// active transaction: then none may commit.
    ghost going: { Self → Option Going };

    /// What holds of a session between its calls.
    ghost holds: { Self → Type 0 };

    /// What tells that this may stop the session: for a shard that is down, that it was found so; for a worn clock, that it is at its end.
    ghost grounds: { Self → CauseIs → Type 0 };

    /// What tells that behind these entries of the session a drop of this transaction came to nothing on this shard: it was down, or had nothing of it.
    ghost missed: { Self → TxId → ℕ → History → Type 0 };

    /// The session's clock: what it makes from then on has stamps past it.
    fn clock(&self) -> u64
        ensures { result ≡ (seen self.now).clock };

    /// Lets go of whatever it stays behind, and tells all sessions that memory was wanting: for whoever runs the session and stops it so between its calls.
    fn tell_lack(&self);

    /// How far its last transaction is.
    fn stage(&self) -> Stage
        ensures { IsStage (seen self.now).standing result };

    /// The place of its last request.
    fn last_request(&self) -> Point
        ensures { result ≡ (seen self.now).asked };

    /// The name of the active transaction.
    fn name(&self) -> TxId
        requires active { (tx : TxId) × (birth : BirthIs) × (nth : ℕ) × (touched : ℕ → Bool) × ((seen self.now).standing ≡ Active tx birth nth touched) }
        ensures { (tx : TxId) (birth : BirthIs) (nth : ℕ) (touched : ℕ → Bool) → (seen self.now).standing ≡ Active tx birth nth touched → result ≡ tx };

    /// Raises the session's clock to this one, if it is lower, while no transaction is active. Nothing else changes.
    fn raise(&mut self, clock: u64)
        requires session { holds self.old }
        requires idle { (again : Option BirthIs) × ((seen self.old).standing ≡ Idle again) }
        ensures session { holds self.new }
        ensures base { base self.new ≡ base self.old }
        ensures raised { seen self.new ≡ raised clock (seen self.old) }
        ensures misses { Keeps (missed self.old) (missed self.new) };

    /// Begins a transaction; the stamp of its birth is past all earlier ones.
    fn begin(&mut self) -> Result<(), StopCause>
        requires session { holds self.old }
        requires idle { (again : Option BirthIs) × ((seen self.old).standing ≡ Idle again) }
        ensures session { holds self.new }
        ensures base { base self.new ≡ base self.old }
        ensures told { BeginTold result (seen self.old) (seen self.new) }
        ensures going { OnOk result (going self.new ≡ Some going_at_start) }
        ensures misses { Keeps (missed self.old) (missed self.new) }
        ensures grounds { IfErr result (grounds self.new) };

    /// Tries the last transaction again, which ended by an abort: with its birth, and a name of its own. Before that it may look for a shard that is down,
    /// and where it finds one, stop there.
    fn retry(&mut self, alloc: Global) -> Result<(), StopCause>
        requires session { holds self.old }
        requires ended { (birth : BirthIs) × ((seen self.old).standing ≡ Idle (Some birth)) }
        ensures session { holds self.new }
        ensures base { base self.new ≡ base self.old }
        ensures told { (birth : BirthIs) → (seen self.old).standing ≡ Idle (Some birth) → RetryTold birth result (seen self.old) (seen self.new) }
        ensures going { OnOk result (going self.new ≡ Some going_at_start) }
        ensures misses { Keeps (missed self.old) (missed self.new) }
        ensures grounds { IfErr result (grounds self.new) };

    /// The next operation of the active transaction, on all shards that it meets. Where it died of it, its other parts are dropped.
    fn operate(&mut self, alloc: Global, op: &Op) -> Result<Answer, TryEnd>
        requires session { holds self.old }
        requires active { (tx : TxId) × (birth : BirthIs) × (nth : ℕ) × (touched : ℕ → Bool) × ((seen self.old).standing ≡ Active tx birth nth touched) }
        requires range { has_range op.now ≡ true }
        ensures session { holds self.new }
        ensures base { base self.new ≡ base self.old }
        ensures told { (tx : TxId) (birth : BirthIs) (nth : ℕ) (touched : ℕ → Bool) → (seen self.old).standing ≡ Active tx birth nth touched → OperateTold tx birth nth touched op.now result (seen self.old) (seen self.new) }
        ensures going { (tx : TxId) (birth : BirthIs) (nth : ℕ) (touched : ℕ → Bool) (g : Going) → (seen self.old).standing ≡ Active tx birth nth touched → going self.old ≡ Some g → IfOk result (λ answer. going self.new ≡ Some (going_on (seen self.old).splits (suc nth) (Did op.now answer) g)) }
        ensures misses { Keeps (missed self.old) (missed self.new) }
        ensures grounds { OnRefusal (grounds self.new) result };

    /// Whether the savepoint of this number stands in the active transaction.
    fn has_savepoint(&self, number: u64) -> bool
        requires session { holds self.now }
        requires whole { (g : Going) × (going self.now ≡ Some g) }
        ensures { (g : Going) → going self.now ≡ Some g → result ≡ is_some (upto_of number g.saves.standing) };

    /// Keeps a savepoint of the active transaction, and gives its number. Nothing else changes.
    fn save(&mut self) -> Result<u64, Memory>
        requires session { holds self.old }
        requires active { (tx : TxId) × (birth : BirthIs) × (nth : ℕ) × (touched : ℕ → Bool) × ((seen self.old).standing ≡ Active tx birth nth touched) }
        requires whole { (g : Going) × (going self.old ≡ Some g) }
        ensures session { holds self.new }
        ensures base { base self.new ≡ base self.old }
        ensures seen { seen self.new ≡ seen self.old }
        ensures number { (g : Going) → going self.old ≡ Some g → IfOk result (λ number. number ≡ suc g.saves.kept) }
        ensures going { (tx : TxId) (birth : BirthIs) (nth : ℕ) (touched : ℕ → Bool) (g : Going) → (seen self.old).standing ≡ Active tx birth nth touched → going self.old ≡ Some g → OnOk result (going self.new ≡ Some (going_saved nth g)) }
        ensures misses { Keeps (missed self.old) (missed self.new) }
        ensures keeps { (cause : CauseIs) → grounds self.old cause → grounds self.new cause };

    /// Takes the active transaction back to the savepoint of this number, which stands. Where something is taken away, it tells after how many acts the
    /// transaction stands again, and is an act itself. Where the transaction died of it, its other parts are dropped.
    fn go_back(&mut self, alloc: Global, number: u64) -> Result<Option<u64>, TryEnd>
        requires session { holds self.old }
        requires active { (tx : TxId) × (birth : BirthIs) × (nth : ℕ) × (touched : ℕ → Bool) × ((seen self.old).standing ≡ Active tx birth nth touched) }
        requires stands { (g : Going) × (upto : ℕ) × (going self.old ≡ Some g) × (upto_of number g.saves.standing ≡ Some upto) }
        ensures session { holds self.new }
        ensures base { base self.new ≡ base self.old }
        ensures told { (tx : TxId) (birth : BirthIs) (nth : ℕ) (touched : ℕ → Bool) (g : Going) (upto : ℕ) → (seen self.old).standing ≡ Active tx birth nth touched → going self.old ≡ Some g → upto_of number g.saves.standing ≡ Some upto → BackTold tx birth nth touched upto g.written result (seen self.old) (seen self.new) }
        ensures going { (g : Going) (upto : ℕ) → going self.old ≡ Some g → upto_of number g.saves.standing ≡ Some upto → OnOk result (going self.new ≡ Some (going_back_to number upto g)) }
        ensures misses { Keeps (missed self.old) (missed self.new) }
        ensures grounds { OnRefusal (grounds self.new) result };

    /// Commits the active transaction, of which no going back was left undone. Where it died or was aborted, its other parts are dropped.
    fn commit(&mut self, alloc: Global) -> TryEnd
        requires session { holds self.old }
        requires active { (tx : TxId) × (birth : BirthIs) × (nth : ℕ) × (touched : ℕ → Bool) × ((seen self.old).standing ≡ Active tx birth nth touched) }
        requires whole { (g : Going) × (going self.old ≡ Some g) }
        ensures session { holds self.new }
        ensures base { base self.new ≡ base self.old }
        ensures told { (tx : TxId) (birth : BirthIs) (nth : ℕ) (touched : ℕ → Bool) → (seen self.old).standing ≡ Active tx birth nth touched → CommitTold tx birth nth touched result (seen self.old) (seen self.new) }
        ensures misses { Keeps (missed self.old) (missed self.new) }
        ensures grounds { OnStop (grounds self.new) result };

    /// Aborts the active transaction: drops it on each shard that it touched.
    fn abort(&mut self, alloc: Global) -> Result<(), StopCause>
        requires session { holds self.old }
        requires active { (tx : TxId) × (birth : BirthIs) × (nth : ℕ) × (touched : ℕ → Bool) × ((seen self.old).standing ≡ Active tx birth nth touched) }
        ensures session { holds self.new }
        ensures base { base self.new ≡ base self.old }
        ensures told { (tx : TxId) (birth : BirthIs) (nth : ℕ) (touched : ℕ → Bool) → (seen self.old).standing ≡ Active tx birth nth touched → AbortTold (missed self.new) tx birth touched result (seen self.old) (seen self.new) }
        ensures misses { Keeps (missed self.old) (missed self.new) }
        ensures grounds { IfErr result (grounds self.new) }
        ensures keeps { (cause : CauseIs) → grounds self.old cause → grounds self.new cause };

    /// Memory may be wanting at any time.
    ghost wanting: { (s : Self) → grounds s Memory };
}
