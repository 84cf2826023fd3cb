// A session.
ghost use Rattle.std.specs.Prelude.{◌≡◌, []};
ghost use Rattle.session_api.specs.Sessions.{IsSession};
ghost use Rattle.session_api.specs.declared.progress.Progress.TheVariants.{Idle};

use crate::progress::Progress;
use cluster_turns::{Shards, Walker};
use io_model::Pace;
use machine_calls::Flier;
use std::alloc::Global;
use std::sync::Wait;

/// A session of a walker on the shards of a cluster.
#[derive(Drop)]
pub struct Session<'a, M: Flier, P: Pace, R: Wait> {
    pub rt: &'a R,
    pub shards: &'a Shards<M>,
    pub pace: &'a P,
    pub walker: Walker<M>,
    pub progress: Progress,
    /// The savepoints of the active transaction that stand: after how many of its acts each was kept, the oldest first.
    pub saves: Vec<u64>,
}

impl<'a, M: Flier, P: Pace, R: Wait> Session<'a, M, P, R> {
    /// A session without a transaction, of a walker whose last one, if any, has ended.
    pub fn new(
        rt: &'a R,
        alloc: Global,
        shards: &'a Shards<M>,
        pace: &'a P,
        walker: Walker<M>,
    ) -> Session<'a, M, P, R>
        requires session { IsSession shards.now walker Idle }
        ensures session { IsSession result.shards.now result.walker result.progress }
        ensures shards { result.shards.now ≡ shards.now }
        ensures begins { (result.walker ≡ walker) × (result.progress ≡ Idle) × (result.saves.items ≡ []) }
    {
        Session {
            rt,
            shards,
            pace,
            walker,
            progress: Progress::Idle,
            saves: Vec::new(alloc),
        }
    }

    /// The session's end. Its walker may have another one, if no transaction of it is active and no request stands.
    pub fn into_walker(self) -> Walker<M>
        ensures { result ≡ self.entry.walker }
    {
        self.shards.go_out(self.walker.number);
        self.walker
    }
}
