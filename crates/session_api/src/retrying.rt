// Trying the last transaction again.
ghost use Rattle.std.specs.Prelude.{◌≡◌, OnOk, []};
ghost use Rattle.session_api.specs.declared.progress.Progress.TheVariants.{Ended};
ghost use Rattle.session_api.specs.Progresses.{retry_refusal};
ghost use Rattle.session_api.specs.Savepoints.{Saved};
ghost use Rattle.session_api.specs.Sessions.{IsSession, RetriedNext, RetryCalled};

use crate::progress::Progress;
use crate::session::Session;
use cluster_turns::Place;
use clv_base::names::TxId;
use io_model::{Pace, Step};
use machine_calls::Flier;
use session_ops::retry;
use std::alloc::Global;
use std::mem;
use std::sync::Wait;

/// Why the last transaction wasn't tried again. All is as before.
#[derive(Clone, Copy, PartialEq, Eq)]
pub enum RetryError {
    /// This one is active.
    Active { tx: TxId },
    /// There is no last one, or it didn't end by an abort.
    NoRetry,
    /// The walker's clock is at its end.
    Worn { at: u64 },
}

// Why a session that stands so has none to try again.
fn refusal(progress: &Progress) -> RetryError
    ensures { result ≡ retry_refusal progress.now }
{
    match progress {
        Progress::Active(place) => RetryError::Active { tx: place.tx() },
        Progress::Worn(place) => RetryError::Active { tx: place.tx() },
        Progress::Undone { place, .. } => RetryError::Active { tx: place.tx() },
        _ => RetryError::NoRetry,
    }
}

impl<'a, M: Flier, P: Pace, R: Wait> Session<'a, M, P, R> {
    // The last transaction ended by an abort.
    fn retry_ended(&mut self, alloc: Global, last: Place) -> Result<TxId, RetryError>
        requires session { IsSession self.old.shards.now self.old.walker (Ended last) }
        requires saved { Saved (Ended last) self.old.saves.items }
        ensures session { IsSession self.new.shards.now self.new.walker self.new.progress }
        ensures saved { Saved self.new.progress self.new.saves.items }
        ensures shards { self.new.shards ≡ self.old.shards }
        ensures anew { OnOk result (self.new.saves.items ≡ []) }
        ensures told { RetriedNext self.old.shards.now self.old.walker last result self.new.walker self.new.progress }
    {
        match retry(self.rt, alloc, self.shards, &mut self.walker, &last) {
            Ok(place) => {
                let session = self.walker.number;
                self.pace.pass(Step::Begun { session });
                let tx = place.tx();
                self.saves.clear();
                self.progress = Progress::Active(place);
                Ok(tx)
            }
            Err(worn) => {
                self.progress = Progress::Ended(last);
                Err(RetryError::Worn { at: worn.at })
            }
        }
    }

    /// Begins the session's next transaction with the birth of its last one. `Active` comes exactly where one is active, else `NoRetry`
    /// exactly where the last one, if any, didn't end by an abort, else `Worn` exactly where the walker's clock is at its end.
    pub fn retry(&mut self, alloc: Global) -> Result<TxId, RetryError>
        requires session { IsSession self.old.shards.now self.old.walker self.old.progress }
        requires saved { Saved self.old.progress self.old.saves.items }
        ensures session { IsSession self.new.shards.now self.new.walker self.new.progress }
        ensures saved { Saved self.new.progress self.new.saves.items }
        ensures shards { self.new.shards ≡ self.old.shards }
        ensures anew { OnOk result (self.new.saves.items ≡ []) }
        ensures told { RetryCalled self.old.shards.now self.old.walker self.old.progress result self.new.walker self.new.progress }
    {
        match mem::replace(&mut self.progress, Progress::Idle) {
            Progress::Ended(place) => self.retry_ended(alloc, place),
            other => {
                let refusal = refusal(&other);
                self.progress = other;
                Err(refusal)
            }
        }
    }
}
