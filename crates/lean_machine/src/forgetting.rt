//! Requests go.
ghost use Rattle.std.specs.Prelude.{◌≡◌, [], ◌∷◌, ◌++◌};
ghost use Rattle.std.specs.Option.{option_copied};
ghost use Rattle.lean_machine.specs.Lean.{commit_by};

use crate::forgetter::Forgetter;
use crate::machine::LeanMachine;
use clv_base::logs::LogRecord;
use clv_base::names::TxId;
use ended_laws::requests::spent_are_not_missed;
use quiet_list::Told;
use two_phase_commit::Kept;

/// Whose COMMIT a record is, if it is one.
fn committed_by(record: Option<&LogRecord>) -> Option<TxId>
    ensures { result ≡ commit_by (option_copied record.entry) }
{
    match record {
        Some(LogRecord::Commit { tx, .. }) => Some(*tx),
        _ => None,
    }
}

/// A row is noted as gone, and let go.
fn note(forgotten: &mut Told<(TxId, Kept)>, tx: TxId, request: Kept)
    ensures { forgotten.new.items ≡ forgotten.old.items ++ (tx, request) ∷ [] }
{
    let row = (tx, request);
    forgotten.push(&row);
}

impl<M: Forgetter> LeanMachine<M> {
    /// The row of the transaction's request goes, where nothing can ask for it any more. What the machine is seen as stays. Takes no memory.
    pub(crate) fn forget(&mut self, tx: TxId)
        ensures { self.new ≡ self.old }
    {
        spent_are_not_missed();
        if !self.machine.is_spent(tx) {
            return;
        }
        if let Some(request) = self.machine.forget_request(tx) {
            note(&mut self.forgotten, tx, request);
        }
    }

    /// The same of those whose COMMITs stand from one LSN on and below another. No scan of the rows: the records name them.
    pub(crate) fn forget_committed(&mut self, from: u64, upto: u64)
        ensures { self.new ≡ self.old }
    {
        for lsn in from..upto {
            if let Some(tx) = committed_by(self.machine.record_at(lsn)) {
                self.forget(tx);
            }
        }
    }
}
