// Savepoints of the active transaction, and going back to one.
ghost use Rattle.std.specs.Prelude.{◌≡◌, ◌≢◌, None};
ghost use Rattle.session_api.specs.declared.progress.Progress.TheVariants.{Active, Undone};
ghost use Rattle.session_api.specs.Progresses.{active_tx, back_told};
ghost use Rattle.session_api.specs.Savepoints.{Saved, StandsFor, StandsIn, SaveCalled, saves_up_to, saves_gone, saves_rolled};
ghost use Rattle.session_api.specs.Sessions.{IsSession};
ghost use Rattle.session_api.specs.GoingBack.{BackMade, AgainMade, BackCalled, RollCalled, has_number};

use crate::progress::{Progress, after_back};
use crate::session::Session;
use cluster_turns::Place;
use clv_base::causes::AbortCause;
use io_model::Pace;
use machine_calls::Flier;
use session_ops::{BackError, roll_again, roll_to};
use std::alloc::Global;
use std::mem;
use std::sync::Wait;

/// Why no savepoint was kept. All is as before.
#[derive(Clone, Copy, PartialEq, Eq)]
pub enum SaveError {
    /// No transaction is active.
    NoTx,
    Memory,
}

/// Why the transaction didn't go back.
#[derive(Clone, Copy, PartialEq, Eq)]
pub enum RollError {
    /// No transaction is active.
    NoTx,
    /// That is no savepoint of the transaction, or one that it went back over.
    NotSaved { upto: u64 },
    /// The transaction died of it.
    Aborted(AbortCause),
    /// This shard was found down. The transaction stays active, and can't commit any more.
    Down { shard: u32 },
    Worn { at: u64 },
}

// The last stamp is below it.
const WORN: u64 = 1 << 48;

fn told(answer: Result<(), BackError>) -> Result<(), RollError>
    ensures { result ≡ back_told answer }
{
    match answer {
        Ok(()) => Ok(()),
        Err(BackError::Aborted(cause)) => Err(RollError::Aborted(cause)),
        Err(BackError::Down { shard }) => Err(RollError::Down { shard }),
        Err(BackError::Worn { at, .. }) => Err(RollError::Worn { at }),
    }
}

// Those later are forgotten.
fn forget_later(saves: &mut Vec<u64>, upto: u64)
    ensures { saves.new.items ≡ saves_up_to upto saves.old.items }
{
    saves.retain(|one| *one <= upto);
}

fn is_saved(saves: &[u64], upto: u64) -> bool
    ensures { result ≡ has_number upto saves.now }
{
    saves.iter().any(|one| *one == upto)
}

impl<'a, M: Flier, P: Pace, R: Wait> Session<'a, M, P, R> {
    /// Keeps a savepoint of the active transaction, and gives what goes back to it: after how many acts it was kept. `NoTx` comes exactly where no
    /// transaction is active. It takes no turn.
    pub fn savepoint(&mut self) -> Result<u64, SaveError>
        requires session { IsSession self.old.shards.now self.old.walker self.old.progress }
        requires saved { Saved self.old.progress self.old.saves.items }
        ensures session { IsSession self.new.shards.now self.new.walker self.new.progress }
        ensures saved { Saved self.new.progress self.new.saves.items }
        ensures rest { (self.new.shards ≡ self.old.shards) × (self.new.walker ≡ self.old.walker) × (self.new.progress ≡ self.old.progress) }
        ensures told { SaveCalled self.old.progress result self.old.saves.items self.new.saves.items }
    {
        let Some(upto) = self.progress.acts() else {
            return Err(SaveError::NoTx);
        };
        match self.saves.push(upto) {
            Ok(()) => Ok(upto),
            Err(_) => Err(SaveError::Memory),
        }
    }

    // Back to after so many acts, of the active transaction.
    fn go_back_active(&mut self, alloc: Global, place: Place, upto: u64) -> Result<(), RollError>
        requires session { IsSession self.old.shards.now self.old.walker (Active place) }
        requires saved { Saved (Active place) self.old.saves.items }
        requires stands { StandsIn place upto }
        ensures session { IsSession self.new.shards.now self.new.walker self.new.progress }
        ensures saved { Saved self.new.progress self.new.saves.items }
        ensures shards { self.new.shards ≡ self.old.shards }
        ensures saves { self.new.saves.items ≡ saves_up_to upto self.old.saves.items }
        ensures told { BackMade self.old.shards.now self.old.walker place upto result self.new.walker self.new.progress }
    {
        let mut place = place;
        let answer = roll_to(
            self.rt,
            alloc,
            self.shards,
            &mut self.walker,
            &mut place,
            upto,
        );
        self.progress = after_back(place, upto, answer);
        forget_later(&mut self.saves, upto);
        told(answer)
    }

    // One that was left undone on a shard is made once more there, and never done.
    pub(crate) fn go_back_again(
        &mut self,
        alloc: Global,
        place: Place,
        shard: u32,
        upto: u64,
    ) -> BackError
        requires session { IsSession self.old.shards.now self.old.walker (Undone place shard upto) }
        requires saved { Saved (Undone place shard upto) self.old.saves.items }
        ensures session { IsSession self.new.shards.now self.new.walker self.new.progress }
        ensures saved { Saved self.new.progress self.new.saves.items }
        ensures shards { self.new.shards ≡ self.old.shards }
        ensures saves { self.new.saves ≡ self.old.saves }
        ensures told { AgainMade self.old.shards.now self.old.walker place shard upto result self.new.walker self.new.progress }
    {
        let mut place = place;
        let error = roll_again(
            self.rt,
            alloc,
            self.shards,
            &mut self.walker,
            &mut place,
            shard,
            upto,
        );
        self.progress = after_back(place, upto, Err(error));
        error
    }

    // Where one is active it goes back to after so many acts, over which it didn't go back.
    pub(crate) fn go_back_to(&mut self, alloc: Global, upto: u64) -> Result<(), RollError>
        requires session { IsSession self.old.shards.now self.old.walker self.old.progress }
        requires saved { Saved self.old.progress self.old.saves.items }
        requires stands { StandsFor self.old.progress upto }
        requires active { active_tx self.old.progress ≢ None }
        ensures session { IsSession self.new.shards.now self.new.walker self.new.progress }
        ensures saved { Saved self.new.progress self.new.saves.items }
        ensures shards { self.new.shards ≡ self.old.shards }
        ensures saves { self.new.saves.items ≡ saves_gone self.old.progress upto self.old.saves.items }
        ensures told { BackCalled self.old.shards.now self.old.walker self.old.progress upto result self.new.walker self.new.progress }
    {
        match mem::replace(&mut self.progress, Progress::Idle) {
            Progress::Active(place) => self.go_back_active(alloc, place, upto),
            Progress::Undone {
                place,
                shard,
                upto: left,
            } => {
                let error = self.go_back_again(alloc, place, shard, left);
                told(Err(error))
            }
            Progress::Worn(place) => {
                self.progress = Progress::Worn(place);
                Err(RollError::Worn { at: WORN })
            }
            _ => unreachable!(),
        }
    }

    /// Takes the active transaction back to a savepoint: what its later operations wrote is taken away on each shard, and the later savepoints
    /// are forgotten; its locks stay. Where nothing of them stands it takes no turn. `NoTx` comes exactly where no transaction is active, else
    /// `NotSaved` exactly where that is no savepoint of this transaction that still stands; every other answer is told by the turns of the call.
    /// After `Aborted` the transaction has ended. After `Down` and `Worn` it is active, and was taken back on lower shards alone: it can't commit
    /// any more, and after `Down` a commit or a further going back makes this one once more on that shard, of which the transaction dies once the
    /// shard is up. It takes no memory.
    pub fn roll_to(&mut self, alloc: Global, upto: u64) -> Result<(), RollError>
        requires session { IsSession self.old.shards.now self.old.walker self.old.progress }
        requires saved { Saved self.old.progress self.old.saves.items }
        ensures session { IsSession self.new.shards.now self.new.walker self.new.progress }
        ensures saved { Saved self.new.progress self.new.saves.items }
        ensures shards { self.new.shards ≡ self.old.shards }
        ensures saves { self.new.saves.items ≡ saves_rolled (has_number upto self.old.saves.items) self.old.progress upto self.old.saves.items }
        ensures told { RollCalled self.old.shards.now self.old.walker self.old.progress self.old.saves.items upto result self.new.walker self.new.progress }
    {
        if self.progress.active().is_none() {
            return Err(RollError::NoTx);
        }
        if !is_saved(&self.saves, upto) {
            return Err(RollError::NotSaved { upto });
        }
        self.go_back_to(alloc, upto)
    }
}
