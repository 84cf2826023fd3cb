// A session that a script may drive.
ghost use Rattle.std.specs.Prelude.{◌≡◌, None};
ghost use Rattle.session_api.specs.declared.progress.Progress.TheVariants.{Idle};
ghost use Rattle.session_api.specs.Seeing.{seen_as};
ghost use Rattle.script_runs.specs.Seen.{Idle as NoneActive};
ghost use Rattle.script_lang.specs.Savepoints.{no_savepoints};
ghost use Rattle.session_api.specs.Standing.{Holds, HoldsSaves, seen_in};

use crate::Session;
use cluster_turns::{Shards, Walker};
use clv_base::names::Point;
use io_model::Pace;
use machine_calls::Flier;
use script_lang::Savepoints;
use std::alloc::Global;
use std::sync::Wait;

/// A session that a script may drive.
#[derive(Drop)]
pub struct ScriptSession<'a, M: Flier, P: Pace, R: Wait> {
    pub session: Session<'a, M, P, R>,
    /// The point of the last request that was acknowledged.
    pub asked: Point,
    /// The script's savepoints of the active transaction.
    pub saves: Savepoints,
    pub alloc: Global,
}

impl<'a, M: Flier, P: Pace, R: Wait> ScriptSession<'a, M, P, R> {
    /// A session without a transaction, of a walker that never took a disk.
    pub fn new(
        rt: &'a R,
        alloc: Global,
        shards: &'a Shards<M>,
        pace: &'a P,
        walker: Walker<M>,
    ) -> ScriptSession<'a, M, P, R>
        requires session { Holds shards.now walker Idle }
        ensures session { HoldsSaves result.session.shards.now result.session.walker result.session.progress result.session.saves.items result.saves }
        ensures shards { result.session.shards.now ≡ shards.now }
        ensures begins { (result.session.walker ≡ walker) × (result.session.progress ≡ Idle) × (result.saves ≡ no_savepoints) }
        ensures seen { seen_in result.session.shards.now result.session.walker result.asked result.session.progress ≡ seen_as shards.now walker result.asked (NoneActive None) }
    {
        ScriptSession {
            session: Session::new(rt, alloc, shards, pace, walker),
            asked: Point { stamp: 0, shard: 0 },
            saves: Savepoints::new(alloc),
            alloc,
        }
    }

    /// The session's end, and its walker.
    pub fn into_walker(self) -> Walker<M>
        ensures { result ≡ self.entry.session.walker }
    {
        let ScriptSession { session, .. } = self;
        session.into_walker()
    }
}
