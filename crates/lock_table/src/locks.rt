//! What a lock table promises, whatever it keeps its locks in.
ghost use Rattle.std.specs.Prelude.{◌≡◌, ◌≤◌, ◌+◌, ℕ, List, [], ◌∷◌, length, OnOk, IfOk};
ghost use Rattle.std.specs.List.{All, Contains};
ghost use Rattle.std.specs.List.Sorted.{IsStrictlySortedBy};
ghost use Rattle.clv_base.specs.declared.names.TxId.{TxId};
ghost use Rattle.clv_base.specs.declared.modes.Anchor.{Anchor};
ghost use Rattle.clv_base.specs.Orders.{tx_cmp};
ghost use Rattle.clv_base.specs.Locks.{Locks as Rows, decide as decision_on, violated as violated_by_grant, take_all, split_gap as with_gaps_copied, close_locks, release as without_locks_of, is_free};
ghost use Rattle.lock_table.specs.Rows.{gaps_held, holders_on, anchors_of, GivesUpOne};

use clv_base::modes::{Anchor, Decision, Holder, Need};
use clv_base::names::{Birth, TxId};
use std::alloc::Global;

/// There was no memory for it.
#[derive(Drop)]
pub struct Memory;

/// The locks of a shard.
///
/// `tx` is a transaction and `birth` its age. An anchor is a record's key, or `Low`, the place below the first record. A need is a mode that is asked for on
/// an anchor. A transaction's locks are active until `close_part`, then closed; closed locks can be violated.
pub trait Locks: Sized {
    /// All locks: rows of an anchor and a holder, by anchor and then transaction.
    ghost rows: { Self → Rows };

    /// For how many locks more there is room: locks of this transaction, or copied ones, on these anchors.
    ghost room: { Self → TxId → List Anchor → ℕ };

    /// A table with no locks.
    fn empty(alloc: Global) -> Result<Self, Memory>
        ensures { IfOk result (λ locks. rows locks ≡ []) };

    /// Makes room for `count` locks, of `tx` or copied, on the anchors. It stands until the next `release` or `release_next`. `Memory` leaves the locks, and the room that there was.
    /// With that room `take` and `split_gap` take no memory; `close_part`, `release` and `release_next` take none whatever the room.
    fn reserve(&mut self, tx: TxId, anchors: &[Anchor], count: usize) -> Result<(), Memory>
        ensures ok { OnOk result ((on : List Anchor) → All (Contains anchors.now) on → count ≤ room self.new tx on) }
        ensures rows { rows self.new ≡ rows self.old }
        ensures room { (t : TxId) (on : List Anchor) → room self.old t on ≤ room self.new t on };

    /// How many locks `split_gap` copies from the anchor: those that hold its gap.
    fn gap_count(&self, anchor: Anchor) -> usize
        ensures { result ≡ gaps_held anchor (rows self.now) };

    /// What a request meets. It dies where an active holder in its way is older, waits where there is an active one, and is granted where all are closed; it is told of the oldest.
    fn decide(&self, tx: TxId, birth: Birth, needs: &[Need]) -> Decision
        ensures { result ≡ decision_on tx birth needs.now (rows self.now) };

    /// The closed holders of whose locks a grant would violate a write, rising and each once.
    fn violated(&self, alloc: Global, tx: TxId, needs: &[Need]) -> Result<Vec<TxId>, Memory>
        ensures ok { IfOk result (λ txs. txs.items ≡ violated_by_grant tx needs.now (rows self.now)) }
        ensures rising { IfOk result (λ txs. IsStrictlySortedBy tx_cmp txs.items) };

    /// Takes the locks that are needed. Where the transaction has a lock on an anchor, the modes are joined. By how much the gap parts grow, `takes_few_gaps` tells.
    fn take(&mut self, tx: TxId, birth: Birth, needs: &[Need])
        requires { length needs.now ≤ room self.old tx (anchors_of needs.now) }
        ensures rows { rows self.new ≡ take_all tx birth needs.now (rows self.old) }
        ensures room { (t : TxId) (on : List Anchor) → room self.old t on ≤ room self.new t on + length needs.now };

    /// Copies all gap parts that are held on `lower` to `new`, a record that splits the gap of `lower`. All other locks stay.
    fn split_gap(&mut self, lower: Anchor, new: Anchor)
        requires { (t : TxId) × (gaps_held lower (rows self.old) ≤ room self.old t (new ∷ [])) }
        ensures rows { rows self.new ≡ with_gaps_copied lower new (rows self.old) }
        ensures room { (t : TxId) (on : List Anchor) → room self.old t on ≤ room self.new t on + gaps_held lower (rows self.old) };

    /// The transaction's locks become closed.
    fn close_part(&mut self, tx: TxId)
        ensures rows { rows self.new ≡ close_locks tx (rows self.old) }
        ensures room { (t : TxId) (on : List Anchor) → room self.old t on ≤ room self.new t on };

    /// The transaction gives up all its locks. Room that was reserved ends.
    fn release(&mut self, tx: TxId)
        ensures { rows self.new ≡ without_locks_of (tx ∷ []) (rows self.old) };

    /// The transaction gives up one of its locks, on the anchor that is told; none exactly where it has none, and then all stay. Room that was reserved ends. Takes no memory.
    fn release_next(&mut self, tx: TxId) -> Option<Anchor>
        ensures { GivesUpOne tx result (rows self.old) (rows self.new) };

    /// Whether nobody holds a lock on the anchor.
    fn free(&self, anchor: Anchor) -> bool
        ensures { result ≡ is_free anchor (rows self.now) };

    /// Who holds a lock on the anchor, by transaction.
    fn holders(&self, alloc: Global, anchor: Anchor) -> Result<Vec<Holder>, Memory>
        ensures { IfOk result (λ on. on.items ≡ holders_on anchor (rows self.now)) };
}
