//! The holders on one anchor, by transaction.
ghost use Rattle.std.specs.Prelude.{◌≡◌, ◌≤◌, ◌<◌, ◌+◌, not, position, map, vec_len, vec_capacity};
ghost use Rattle.std.specs.Ordering.{is_gt};
ghost use Rattle.clv_base.specs.Orders.{tx_cmp, tx_same};
ghost use Rattle.clv_base.specs.Modes.{is_held};
ghost use Rattle.clv_base.specs.Locks.{close_holder};
ghost use Rattle.lock_index.specs.Writes.{take_here, leave as without};

use clv_base::modes::{Holder, Part};
use clv_base::names::TxId;
use lock_table::join;

/// Whether a holder holds the gap.
pub(crate) fn is_gap_held(holder: &Holder) -> bool
    ensures { result ≡ is_held (holder.now.mode).gap }
{
    !matches!(holder.mode.gap, Part::N)
}

/// The first holder at or behind the transaction's place.
fn place_of(holders: &[Holder], tx: TxId) -> Option<usize>
    ensures { result ≡ position (λ h. not (is_gt (tx_cmp tx h.tx))) holders.now }
{
    holders
        .iter()
        .position(|holder| !tx.cmp(&holder.tx).is_gt())
}

/// Puts a holder at its place, or joins its mode to the transaction's that is there.
pub(crate) fn put(holders: &mut Vec<Holder>, holder: Holder)
    requires { vec_len holders.old < vec_capacity holders.old }
    ensures holders { holders.new.items ≡ take_here holder holders.old.items }
    ensures room { (vec_capacity holders.new ≡ vec_capacity holders.old) × (vec_len holders.new ≤ vec_len holders.old + 1) }
{
    let Some(at) = place_of(holders, holder.tx) else {
        holders.push_reserved(holder);
        return;
    };
    let held = holders[at];
    if holder.tx.cmp(&held.tx).is_eq() {
        let mode = join(held.mode, holder.mode);
        holders[at] = Holder { mode, ..held };
        return;
    }
    let Ok(()) = holders.insert(at, holder) else {
        unreachable!()
    };
}

/// The transaction's holder goes.
pub(crate) fn leave(holders: &mut Vec<Holder>, tx: TxId)
    ensures { holders.new.items ≡ without tx holders.old.items }
{
    holders.retain(
        |holder: &Holder| -> bool
            ensures { result ≡ not (tx_same tx holder.now.tx) }
        { tx != holder.tx },
    );
}

/// A holder becomes closed where it is the transaction's.
fn close_one(holder: &mut Holder, tx: TxId)
    ensures { holder.new ≡ close_holder tx holder.old }
{
    if tx == holder.tx {
        holder.closed = true;
    }
}

/// The transaction's holder becomes closed.
pub(crate) fn close(holders: &mut [Holder], tx: TxId)
    ensures { holders.new ≡ map (close_holder tx) holders.old }
{
    for holder in holders.iter_mut() {
        close_one(holder, tx);
    }
}
