//! Locks are given up.
ghost use Rattle.std.specs.Prelude.{◌≡◌, [], ◌∷◌};
ghost use Rattle.clv_base.specs.Locks.{release as without_locks_of};
ghost use Rattle.lock_table.specs.Rows.{GivesUpOne};
ghost use Rattle.lock_index.specs.Kept.{Kept, locks_in};

use crate::groups::leave_on;
use crate::key::Key;
use crate::links::{Link, take_first};
use clv_base::modes::{Anchor, Holder};
use clv_base::names::TxId;
use indexmap::IndexMap;

/// The transaction gives up one of its locks, on the anchor that is told.
pub(crate) fn release_next(
    groups: &mut IndexMap<Key, Vec<Holder>>,
    links: &mut IndexMap<Link, Option<Anchor>>,
    tx: TxId,
) -> Option<Anchor>
    requires { Kept groups.old.entries links.old.entries }
    ensures kept { Kept groups.new.entries links.new.entries }
    ensures given { GivesUpOne tx result (locks_in groups.old.entries) (locks_in groups.new.entries) }
{
    let Some(anchor) = take_first(links, tx) else {
        return None;
    };
    leave_on(groups, anchor, tx);
    Some(anchor)
}

/// The transaction gives up all its locks.
pub(crate) fn release(
    groups: &mut IndexMap<Key, Vec<Holder>>,
    links: &mut IndexMap<Link, Option<Anchor>>,
    tx: TxId,
)
    requires { Kept groups.old.entries links.old.entries }
    ensures kept { Kept groups.new.entries links.new.entries }
    ensures rows { locks_in groups.new.entries ≡ without_locks_of (tx ∷ []) (locks_in groups.old.entries) }
{
    let mut more = true;
    while more {
        more = release_next(groups, links, tx).is_some();
    }
}
