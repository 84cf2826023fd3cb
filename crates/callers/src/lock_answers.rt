//! What a table of locks answers.
ghost use Rattle.std.specs.Prelude.{◌≡◌};

use clv_base::lists::TxList;
use clv_base::modes::{Anchor, Decision, Holder};
use std::marker::Model;

/// Holders, which contracts see as a list.
#[derive(Drop)]
pub struct HolderList {
    items: Vec<Holder>,
}

impl Model for HolderList {
    ghost use Rattle.std.specs.Prelude.{List};
    ghost use Rattle.clv_base.specs.declared.modes.Holder.{Holder as OneHolder};

    ghost Value = { List OneHolder };

    ghost view = { λ l. l.items.items };
}

impl HolderList {
    /// The list of the vector's holders, in its order. Takes no memory.
    pub fn new(items: Vec<Holder>) -> Self
        ensures { result ≡ items.items }
    {
        HolderList { items }
    }

    /// The holders, in order.
    pub fn as_slice(&self) -> &[Holder]
        ensures { result.now ≡ self.now }
    {
        self.items.as_slice()
    }
}

/// The answer of a call.
#[derive(Drop)]
pub enum LockAnswer {
    /// The locks were changed.
    Done,
    /// One lock was given up, on this anchor; none where the transaction had none.
    GaveUp(Option<Anchor>),
    /// So many hold the gap.
    Count(usize),
    /// What a request meets.
    Decided(Decision),
    /// These transactions, rising.
    Txs(TxList),
    /// Whether it is free.
    Free(bool),
    /// These hold a lock, by transaction.
    Held(HolderList),
}
