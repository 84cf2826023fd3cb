// The members of a set, listed.

ghost use Rattle.std.specs.Prelude.{◌≡◌, IfOk};

use crate::set::TxSet;
use clv_base::names::TxId;
use std::alloc::{AllocError, Global};
use std::collections::BTreeSet;

fn list_of(alloc: Global, members: &BTreeSet<TxId>) -> Result<Vec<TxId>, AllocError>
    ensures { IfOk result (λ listed. listed.items ≡ members.now.keys) }
{
    members.iter().copied().collect(alloc)
}

impl TxSet {
    /// The members, in rising order.
    pub fn to_vec(&self, alloc: Global) -> Result<Vec<TxId>, AllocError>
        ensures { IfOk result (λ listed. listed.items ≡ self.now) }
    {
        list_of(alloc, &self.members)
    }
}
