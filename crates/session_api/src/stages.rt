// How far a session's last transaction is, to whoever runs a script.
ghost use Rattle.std.specs.Prelude.{◌≡◌, ℕ, Bool};
ghost use Rattle.clv_base.specs.declared.names.TxId.{TxId as TxIdIs};
ghost use Rattle.clv_base.specs.declared.names.Birth.{Birth as BirthIs};
ghost use Rattle.script_runs.specs.Seen.{IsStage, Active};
ghost use Rattle.session_api.specs.Standing.{active_as, standing_of};

use crate::progress::Progress;
use cluster_turns::Place;
use clv_base::names::TxId;
use script_runs::Stage;

// Of an active transaction, which has a birth.
fn active_stage(place: &Place) -> Stage
    ensures { IsStage (active_as place.now place.now.birth) result }
{
    let _birth = place.birth();
    Stage::Active {
        touched: place.home().is_some(),
    }
}

pub(crate) fn stage_of(progress: &Progress) -> Stage
    ensures { IsStage (standing_of progress.now) result }
{
    match progress {
        Progress::Idle => Stage::Idle,
        Progress::Active(place) => active_stage(place),
        Progress::Worn(place) => active_stage(place),
        Progress::Undone { place, .. } => active_stage(place),
        Progress::Asked { .. } => Stage::Asked,
        Progress::Ended(_) => Stage::Idle,
    }
}

// The name of the active transaction.
pub(crate) fn name_of(progress: &Progress) -> TxId
    requires active { (tx : TxIdIs) × (birth : BirthIs) × (nth : ℕ) × (touched : ℕ → Bool) × (standing_of progress.now ≡ Active tx birth nth touched) }
    ensures { (tx : TxIdIs) (birth : BirthIs) (nth : ℕ) (touched : ℕ → Bool) → standing_of progress.now ≡ Active tx birth nth touched → result ≡ tx }
{
    match progress.active() {
        Some(tx) => tx,
        None => unreachable!(),
    }
}
