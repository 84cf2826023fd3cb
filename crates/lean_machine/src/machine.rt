//! The machine.
ghost use Rattle.std.specs.Prelude.{◌≡◌};
ghost use Rattle.machine_calls.specs.Settled.{is_settled as is_settled_in};

use crate::forgetter::Forgetter;
use clv_base::names::TxId;
use machine_calls::Parts;
use quiet_list::Told;
use std::marker::Model;
use two_phase_commit::Kept;

/// A machine without the requests that nothing asks for any more.
pub struct LeanMachine<M: Forgetter> {
    pub(crate) machine: M,
    /// The rows that are gone, the first one first. They are kept in proofs alone.
    pub(crate) forgotten: Told<(TxId, Kept)>,
}

impl<M: Forgetter> Model for LeanMachine<M> {
    ghost use Rattle.lean_machine.specs.Lean.{whole, IsLean, Leaned};

    ghost Value = { Leaned M.Gate };

    ghost view = { λ m. record { shard = whole m.forgotten.items (M.shard m.machine); gate = M.gate m.machine } };

    ghost invariant = { λ m. IsLean m.forgotten.items (M.shard m.machine) };
}

impl<M: Forgetter> LeanMachine<M> {
    /// Whether nothing is left to do here but for active parts. It goes through all parts of the epoch, and the requests that are kept.
    pub fn is_settled(&self) -> bool
        ensures { result ≡ is_settled_in self.now.shard }
    {
        self.machine.is_settled()
    }

    /// The gate, where the machine has it, the records and the journal, by move.
    pub fn into_parts(self) -> Parts<M::Store, M::Gate>
        ensures gate { result.gate ≡ self.gate }
        ensures store { M.Store.records result.store ≡ ((self.shard).local).records }
        ensures journal { result.journal.items ≡ (self.shard).journal }
    {
        let LeanMachine {
            machine,
            forgotten: _,
        } = self;
        machine.into_parts()
    }
}
