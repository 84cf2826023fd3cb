// How the active transaction ends.
ghost use Rattle.std.specs.Prelude.{◌≡◌};
ghost use Rattle.cluster_closing.specs.Landed.{HasLanded};
ghost use Rattle.session_ops.specs.Standings.{IsUnasked};
ghost use Rattle.session_api.specs.declared.progress.Progress.TheVariants.{Active, Asked};
ghost use Rattle.session_api.specs.Progresses.{commit_refusal, commit_undone, commit_told, settle_told, abort_told, progress_committed, progress_aborted, is_nothing};
ghost use Rattle.session_api.specs.Savepoints.{Saved, AllStand};
ghost use Rattle.session_api.specs.Sessions.{IsSession, CommitCalled, CommitMade, LooksMade, AbortCalled, AbortMade};

use crate::progress::{Progress, after_request};
use crate::session::Session;
use cluster_turns::{Place, WornClock};
use clv_base::causes::AbortCause;
use clv_base::names::Point;
use io_model::Pace;
use machine_calls::Flier;
use session_ops::{BackError, CommitError as Failure, SettleError, Settled, abort, commit, finish};
use std::alloc::Global;
use std::mem;
use std::sync::Wait;

/// Why a commit didn't go well.
#[derive(Clone, Copy, PartialEq, Eq)]
pub enum CommitError {
    /// No transaction is active, and no request stands.
    NoTx,
    /// The transaction died of its request, or was told that it is aborted.
    Aborted(AbortCause),
    /// The home was found down before the request was made, or the shard on which a going back was left undone. The transaction stays active.
    Down { shard: u32 },
    /// A turn after the request found the shard down: the home or a touched one, or after a long wait any, where nothing else moved. The
    /// request stands, and a commit called again looks again.
    Unsettled { shard: u32 },
    Worn { at: u64 },
    Memory,
}

/// Why an abort didn't go well.
#[derive(Clone, Copy, PartialEq, Eq)]
pub enum AbortError {
    /// No transaction is active.
    NoTx,
    /// A drop needed a stamp past the last. The transaction stays active.
    Worn { at: u64 },
}

// The last stamp is below it.
const WORN: u64 = 1 << 48;

fn told(answer: Result<Settled, Failure>) -> Result<Settled, CommitError>
    ensures { result ≡ commit_told answer }
{
    match answer {
        Ok(settled) => Ok(settled),
        Err(Failure::Aborted(cause)) => Err(CommitError::Aborted(cause)),
        Err(Failure::Down { shard }) => Err(CommitError::Down { shard }),
        Err(Failure::Unsettled { shard }) => Err(CommitError::Unsettled { shard }),
        Err(Failure::Worn { at }) => Err(CommitError::Worn { at }),
        Err(Failure::Memory) => Err(CommitError::Memory),
    }
}

// Of a request at this point.
fn settled(asked: Point, answer: Result<Point, SettleError>) -> Result<Settled, CommitError>
    ensures { result ≡ settle_told asked answer }
{
    match answer {
        Ok(_look) => Ok(Settled::Committed { point: asked }),
        Err(SettleError::Aborted(cause)) => Err(CommitError::Aborted(cause)),
        Err(SettleError::Unsettled { shard }) => Err(CommitError::Unsettled { shard }),
        Err(SettleError::Worn { at }) => Err(CommitError::Worn { at }),
        Err(SettleError::Memory) => Err(CommitError::Memory),
    }
}

// Behind a going back that was left undone.
fn undone(error: BackError) -> CommitError
    ensures { result ≡ commit_undone error }
{
    match error {
        BackError::Aborted(cause) => CommitError::Aborted(cause),
        BackError::Down { shard } => CommitError::Down { shard },
        BackError::Worn { at, .. } => CommitError::Worn { at },
    }
}

fn is_empty(answer: &Result<Settled, Failure>) -> bool
    ensures { result ≡ is_nothing answer.now }
{
    match answer {
        Ok(Settled::Empty) => true,
        _ => false,
    }
}

// Why a session that stands so has nothing to commit.
fn refusal(progress: &Progress) -> CommitError
    ensures { result ≡ commit_refusal progress.now }
{
    match progress {
        Progress::Worn(_) => CommitError::Worn { at: WORN },
        _ => CommitError::NoTx,
    }
}

// After a commit, whose request has this stamp; there is nothing left of a transaction that touched nothing.
fn after_commit(place: Place, stamp: u64, empty: bool) -> Progress
    ensures { result ≡ progress_committed place stamp empty }
{
    if empty {
        Progress::Idle
    } else {
        after_request(place, stamp)
    }
}

fn after_abort(place: Place, answer: Result<(), WornClock>) -> Progress
    ensures { result ≡ progress_aborted place answer }
{
    match answer {
        Ok(()) => Progress::Ended(place),
        Err(_) => Progress::Worn(place),
    }
}

fn aborted(answer: Result<(), WornClock>) -> Result<(), AbortError>
    ensures { result ≡ abort_told answer }
{
    match answer {
        Ok(()) => Ok(()),
        Err(worn) => Err(AbortError::Worn { at: worn.at }),
    }
}

impl<'a, M: Flier, P: Pace, R: Wait> Session<'a, M, P, R> {
    fn commit_active(&mut self, alloc: Global, place: Place) -> Result<Settled, CommitError>
        requires session { IsSession self.old.shards.now self.old.walker (Active place) }
        requires saved { Saved (Active place) self.old.saves.items }
        ensures session { IsSession self.new.shards.now self.new.walker self.new.progress }
        ensures saved { Saved self.new.progress self.new.saves.items }
        ensures shards { self.new.shards ≡ self.old.shards }
        ensures told { CommitMade self.old.shards.now self.old.walker place result self.new.walker self.new.progress }
    {
        let mut place = place;
        let ended = commit(
            self.rt,
            alloc,
            self.shards,
            &mut self.walker,
            &mut place,
            self.pace,
        );
        let empty = is_empty(&ended.answer);
        self.progress = after_commit(place, ended.stamp, empty);
        told(ended.answer)
    }

    // The request stands at this home, with this stamp.
    fn look_again(
        &mut self,
        alloc: Global,
        place: Place,
        home: u32,
        stamp: u64,
    ) -> Result<Settled, CommitError>
        requires session { IsSession self.old.shards.now self.old.walker (Asked place home stamp) }
        requires saved { Saved (Asked place home stamp) self.old.saves.items }
        ensures session { IsSession self.new.shards.now self.new.walker self.new.progress }
        ensures saved { Saved self.new.progress self.new.saves.items }
        ensures shards { self.new.shards ≡ self.old.shards }
        ensures told { LooksMade self.old.shards.now self.old.walker place home stamp result self.new.walker self.new.progress }
    {
        let mut place = place;
        let answer = finish(
            self.rt,
            alloc,
            self.shards,
            &mut self.walker,
            &mut place,
            home,
            self.pace,
        );
        self.progress = after_request(place, stamp);
        settled(Point { stamp, shard: home }, answer)
    }

    /// Commits the active transaction, or looks again where its request stands. `NoTx` comes exactly where neither is so, `Empty` only
    /// where it touched nothing; every other answer is told by the turns of the call. `Unsettled` comes only where one found that shard
    /// down: the home, or, in a round after a wait, one that the transaction touched, or any where that round found each shard down, or
    /// with nothing buffered and no message. After `Down` the transaction is active, after `Unsettled` its request stands; after `Worn`
    /// and `Memory` it stands where it was made, else the transaction is active. Behind a going back that was left undone it makes this once
    /// more on its shard, and no request: the transaction dies of it, or that shard is down still, or stamps are wanting. The point of an
    /// acknowledged one is that of its request, which is among the walker's entries: so the points of two sessions' answers order as their
    /// transactions do in the serial history.
    pub fn commit(&mut self, alloc: Global) -> Result<Settled, CommitError>
        requires session { IsSession self.old.shards.now self.old.walker self.old.progress }
        requires saved { Saved self.old.progress self.old.saves.items }
        ensures session { IsSession self.new.shards.now self.new.walker self.new.progress }
        ensures saved { Saved self.new.progress self.new.saves.items }
        ensures shards { self.new.shards ≡ self.old.shards }
        ensures told { CommitCalled self.old.shards.now self.old.walker self.old.progress result self.new.walker self.new.progress }
    {
        match mem::replace(&mut self.progress, Progress::Idle) {
            Progress::Active(place) => self.commit_active(alloc, place),
            Progress::Asked { place, home, stamp } => self.look_again(alloc, place, home, stamp),
            Progress::Undone { place, shard, upto } => {
                Err(undone(self.go_back_again(alloc, place, shard, upto)))
            }
            other => {
                let refusal = refusal(&other);
                self.progress = other;
                Err(refusal)
            }
        }
    }

    fn abort_active(&mut self, alloc: Global, place: Place) -> Result<(), AbortError>
        requires unasked { IsUnasked self.old.shards.now self.old.walker place }
        requires landed { HasLanded self.old.walker.number self.old.walker.passes.items }
        requires saved { AllStand place self.old.saves.items }
        ensures session { IsSession self.new.shards.now self.new.walker self.new.progress }
        ensures saved { Saved self.new.progress self.new.saves.items }
        ensures shards { self.new.shards ≡ self.old.shards }
        ensures told { AbortMade self.old.shards.now self.old.walker place result self.new.walker self.new.progress }
    {
        let mut place = place;
        let answer = abort(self.rt, alloc, self.shards, &mut self.walker, &mut place);
        self.progress = after_abort(place, answer);
        aborted(answer)
    }

    /// Aborts the active transaction: drops it on each shard that it touched and that isn't down. `NoTx` comes exactly where none is
    /// active; after `Worn` it may only be aborted again.
    pub fn abort(&mut self, alloc: Global) -> Result<(), AbortError>
        requires session { IsSession self.old.shards.now self.old.walker self.old.progress }
        requires saved { Saved self.old.progress self.old.saves.items }
        ensures session { IsSession self.new.shards.now self.new.walker self.new.progress }
        ensures saved { Saved self.new.progress self.new.saves.items }
        ensures shards { self.new.shards ≡ self.old.shards }
        ensures told { AbortCalled self.old.shards.now self.old.walker self.old.progress result self.new.walker self.new.progress }
    {
        match mem::replace(&mut self.progress, Progress::Idle) {
            Progress::Active(place) => self.abort_active(alloc, place),
            Progress::Worn(place) => self.abort_active(alloc, place),
            Progress::Undone { place, .. } => self.abort_active(alloc, place),
            other => {
                self.progress = other;
                Err(AbortError::NoTx)
            }
        }
    }
}
