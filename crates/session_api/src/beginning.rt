// Beginning a transaction.
ghost use Rattle.std.specs.Prelude.{◌≡◌, None, OnOk, []};
ghost use Rattle.session_api.specs.Progresses.{active_tx};
ghost use Rattle.session_api.specs.Savepoints.{Saved};
ghost use Rattle.session_api.specs.Sessions.{IsSession, BeginCalled, BegunNext};

use crate::progress::Progress;
use crate::session::Session;
use clv_base::names::TxId;
use io_model::{Pace, Step};
use machine_calls::Flier;
use session_ops::begin;
use std::alloc::Global;
use std::sync::Wait;

/// Why no transaction was begun. All is as before.
#[derive(Clone, Copy, PartialEq, Eq)]
pub enum BeginError {
    /// This one is active.
    Active { tx: TxId },
    /// The walker's clock is at its end.
    Worn { at: u64 },
}

impl<'a, M: Flier, P: Pace, R: Wait> Session<'a, M, P, R> {
    // No transaction is active; a request that stands is forgotten.
    fn begin_next(&mut self, alloc: Global) -> Result<TxId, BeginError>
        requires session { IsSession self.old.shards.now self.old.walker self.old.progress }
        requires saved { Saved self.old.progress self.old.saves.items }
        requires none { active_tx self.old.progress ≡ None }
        ensures session { IsSession self.new.shards.now self.new.walker self.new.progress }
        ensures saved { Saved self.new.progress self.new.saves.items }
        ensures shards { self.new.shards ≡ self.old.shards }
        ensures anew { OnOk result (self.new.saves.items ≡ []) }
        ensures told { BegunNext self.old.shards.now self.old.walker self.old.progress result self.new.walker self.new.progress }
    {
        match begin(alloc, self.shards, &mut self.walker) {
            Ok(place) => {
                let session = self.walker.number;
                self.pace.pass(Step::Begun { session });
                let tx = place.tx();
                self.saves.clear();
                self.progress = Progress::Active(place);
                Ok(tx)
            }
            Err(worn) => Err(BeginError::Worn { at: worn.at }),
        }
    }

    /// Begins the session's next transaction. `Active` comes exactly where one is active, else `Worn` exactly where the walker's clock is
    /// at its end.
    pub fn begin(&mut self, alloc: Global) -> Result<TxId, BeginError>
        requires session { IsSession self.old.shards.now self.old.walker self.old.progress }
        requires saved { Saved self.old.progress self.old.saves.items }
        ensures session { IsSession self.new.shards.now self.new.walker self.new.progress }
        ensures saved { Saved self.new.progress self.new.saves.items }
        ensures shards { self.new.shards ≡ self.old.shards }
        ensures anew { OnOk result (self.new.saves.items ≡ []) }
        ensures told { BeginCalled self.old.shards.now self.old.walker self.old.progress result self.new.walker self.new.progress }
    {
        match self.progress.active() {
            Some(tx) => Err(BeginError::Active { tx }),
            None => self.begin_next(alloc),
        }
    }
}
