//! Calls of a table of locks.

use clv_base::modes::{Anchor, Need};
use clv_base::names::{Birth, TxId};

/// A call of a table of locks. One that takes or copies locks makes room for them first.
#[derive(Clone, Copy, Drop)]
pub enum LockCall<'a> {
    /// Takes the locks that a transaction needs.
    Take {
        tx: TxId,
        birth: Birth,
        needs: &'a [Need],
    },
    /// Copies the gap parts held on `lower` to `new`, a record of this transaction that splits the gap.
    SplitGap {
        tx: TxId,
        lower: Anchor,
        new: Anchor,
    },
    /// The transaction's locks become closed.
    ClosePart(TxId),
    /// The transaction gives up all its locks.
    Release(TxId),
    /// The transaction gives up one of its locks, of the table's choice.
    ReleaseNext(TxId),
    /// How many hold the anchor's gap.
    GapCount(Anchor),
    /// What a request meets.
    Decide {
        tx: TxId,
        birth: Birth,
        needs: &'a [Need],
    },
    /// The closed holders of whose locks a grant would violate a write.
    Violated {
        tx: TxId,
        needs: &'a [Need],
    },
    /// Whether nobody holds a lock on the anchor.
    IsFree(Anchor),
    /// Who holds a lock on the anchor.
    Holders(Anchor),
}
