//! A transaction's locks become closed.
ghost use Rattle.std.specs.Prelude.{◌≡◌, ◌≤◌};
ghost use Rattle.clv_base.specs.declared.modes.Anchor.{Anchor as AnAnchor};
ghost use Rattle.clv_base.specs.Locks.{close_locks};
ghost use Rattle.lock_index.specs.Rows.{spare_on};
ghost use Rattle.lock_index.specs.Kept.{Kept, locks_in};

use crate::groups::close_on;
use crate::key::Key;
use crate::links::{Link, first, next};
use clv_base::modes::{Anchor, Holder};
use clv_base::names::TxId;
use indexmap::IndexMap;

/// The transaction's locks become closed, on one anchor of its thread after another.
pub(crate) fn close(
    groups: &mut IndexMap<Key, Vec<Holder>>,
    links: &IndexMap<Link, Option<Anchor>>,
    tx: TxId,
)
    requires { Kept groups.old.entries links.now.entries }
    ensures kept { Kept groups.new.entries links.now.entries }
    ensures rows { locks_in groups.new.entries ≡ close_locks tx (locks_in groups.old.entries) }
    ensures room { (a : AnAnchor) → spare_on a groups.old.entries ≤ spare_on a groups.new.entries }
{
    let mut at = first(links, tx);
    'walk: for i in 0..links.len() {
        let Some(anchor) = at else {
            return;
        };
        close_on(groups, anchor, tx);
        at = next(links, tx, Some(anchor)).flatten();
    }
}
