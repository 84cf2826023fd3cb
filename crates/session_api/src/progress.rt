// How a session's last transaction stands.
ghost use Rattle.std.specs.Prelude.{◌≡◌, IfSome};
ghost use Rattle.session_api.specs.Progresses.{after_op, after_commit, progress_back, active_tx, acts_in};
ghost use Rattle.session_api.specs.Savepoints.{StandsFor};

use cluster_turns::{Place, Stage};
use clv_base::names::TxId;
use session_ops::BackError;

/// How a session's last transaction stands.
#[derive(Drop)]
pub enum Progress {
    /// There is none, or it was acknowledged, or touched nothing when it was committed.
    Idle,
    /// It may have operations.
    Active(Place),
    /// It is active, but stamps were wanting at its abort: it may only be aborted again.
    Worn(Place),
    /// It is active, but a going back to after so many acts was left undone on this shard, which was down: it can't commit any more.
    Undone { place: Place, shard: u32, upto: u64 },
    /// Its request stands at its home, with this stamp.
    Asked { place: Place, home: u32, stamp: u64 },
    /// It ended by an abort.
    Ended(Place),
}

impl Progress {
    /// The active transaction, if there is one.
    pub fn active(&self) -> Option<TxId>
        ensures { result ≡ active_tx self.now }
    {
        match self {
            Progress::Active(place) => Some(place.tx()),
            Progress::Worn(place) => Some(place.tx()),
            Progress::Undone { place, .. } => Some(place.tx()),
            _ => None,
        }
    }

    /// How many acts the active transaction had, if there is one. A later going back may lead there.
    pub fn acts(&self) -> Option<u64>
        ensures count { result ≡ acts_in self.now }
        ensures stands { IfSome result (StandsFor self.now) }
    {
        match self {
            Progress::Active(place) => Some(place.nth()),
            Progress::Worn(place) => Some(place.nth()),
            Progress::Undone { place, .. } => Some(place.nth()),
            _ => None,
        }
    }
}

// After an operation, which the transaction may have died of.
pub(crate) fn after_operation(place: Place, died: bool) -> Progress
    ensures { result ≡ after_op place died }
{
    if died {
        Progress::Ended(place)
    } else {
        Progress::Active(place)
    }
}

// After a going back to after so many acts.
pub(crate) fn after_back(place: Place, upto: u64, answer: Result<(), BackError>) -> Progress
    ensures { result ≡ progress_back place upto answer }
{
    match answer {
        Ok(()) => Progress::Active(place),
        Err(BackError::Aborted(_)) => Progress::Ended(place),
        Err(BackError::Down { shard }) => Progress::Undone { place, shard, upto },
        Err(BackError::Worn { .. }) => Progress::Worn(place),
    }
}

// After a commit, where there was something to commit. A request that stands has this stamp.
pub(crate) fn after_request(place: Place, stamp: u64) -> Progress
    ensures { result ≡ after_commit place stamp place.phase }
{
    match place.stage() {
        Stage::Touching => Progress::Active(place),
        Stage::Standing(home) => Progress::Asked { place, home, stamp },
        Stage::Told => Progress::Idle,
        Stage::Ended => Progress::Ended(place),
        Stage::Refused => Progress::Ended(place),
    }
}
