// Sets of LSNs.

ghost use Rattle.std.specs.Prelude.{◌≡◌, ℕ, true, false, IfOk, OnOk, if◌then◌else◌};
ghost use Rattle.std.specs.Ordering.{nat_cmp, is_eq};
ghost use Rattle.checkpoint_taking.specs.Lsns.{has_lsn, lsn_in};

use crate::Memory;
use std::alloc::Global;
use std::collections::BTreeSet;

/// LSNs, found in time logarithmic in their number.
#[derive(Drop)]
pub struct LsnSet {
    members: BTreeSet<u64>,
}

impl LsnSet {
    fn new(alloc: Global) -> Self
        ensures { (n : ℕ) → has_lsn result n ≡ false }
    {
        LsnSet {
            members: BTreeSet::new(alloc),
        }
    }

    /// The set of these.
    pub fn of(alloc: Global, lsns: &[u64]) -> Result<Self, Memory>
        ensures { IfOk result (λ set. (n : ℕ) → has_lsn set n ≡ lsn_in n lsns.now) }
    {
        let mut set = Self::new(alloc);
        for lsn in lsns {
            set.insert(*lsn)?;
        }
        Ok(set)
    }

    /// Whether an LSN is a member.
    pub fn contains(&self, lsn: u64) -> bool
        ensures { result ≡ has_lsn self.now lsn }
    {
        self.members.contains(&lsn)
    }

    fn insert(&mut self, lsn: u64) -> Result<(), Memory>
        ensures { OnOk result ((n : ℕ) → has_lsn self.new n ≡ (if is_eq (nat_cmp lsn n) then true else has_lsn self.old n)) }
    {
        self.members.insert(lsn)?;
        Ok(())
    }
}
